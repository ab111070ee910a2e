// Lines of several labels and numbers, through a pen.
ghost use Rattle.hg_io.specs.Faults.{HasCause};
ghost use Rattle.hg_io.specs.Transfers.{Writes};
ghost use Rattle.trace_text.specs.Fields.{field_text, fields_text, fields_of};

use hg_io::{Failed, Pen, Sink};
use hg_text::put_number;

/// A number, and what stands before it in its line, blanks included.
#[derive(Clone, Copy)]
pub(crate) struct Field<'a> {
    pub label: &'a [u8],
    pub value: u64,
}

pub(crate) fn put_fields<K: Sink>(
    pen: &mut Pen,
    sink: &mut K,
    fields: &[Field<'_>],
) -> Result<(), Failed>
    ensures bytes { Writes (K.got sink.old) (K.got sink.new) pen.old pen.new result (fields_text (fields_of
        fields.now)) }
    ensures cause { HasCause (K.faults sink.old) (K.faults sink.new) result }
{
    'fields: for field in fields {
        put_field(pen, sink, field)?;
    }
    Ok(())
}

fn put_field<K: Sink>(pen: &mut Pen, sink: &mut K, field: &Field<'_>) -> Result<(), Failed>
    ensures bytes { Writes (K.got sink.old) (K.got sink.new) pen.old pen.new result
        (field_text (field.now.label.now, field.now.value)) }
    ensures cause { HasCause (K.faults sink.old) (K.faults sink.new) result }
{
    pen.write(sink, field.label)?;
    put_number(pen, sink, field.value)
}
