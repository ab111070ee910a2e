ghost use Rattle.std.specs.Prelude.{◌≡◌, ◌+◌, ◌*◌, ◌≤◌, length, drop};
ghost use Rattle.hg_io.specs.Faults.{HasCause};
ghost use Rattle.hg_io.specs.Transfers.{PutsAll};
ghost use Rattle.part_text.specs.Part.{part_text as text_of_part};

use hg_io::{Failed, Sink, put_all};
use itoa::write_digits;

/// The bytes of the longest line: ten digits and a line feed.
const LINE: usize = 11;

/// The lines that are put in one piece.
const LINES: usize = 372;

/// Writes a partition: for each vertex its block in decimal digits, and a line feed.
///
/// It takes no memory over a sink that takes none.
pub fn put_part<K: Sink>(sink: &mut K, blocks: &[u32]) -> Result<(), Failed>
    ensures bytes { PutsAll (K.got sink.old) (K.got sink.new) result (text_of_part blocks.now) }
    ensures cause { HasCause (K.faults sink.old) (K.faults sink.new) result }
{
    let mut room = [0; LINE * LINES];
    let mut rest = blocks;
    'pieces: while !rest.is_empty() {
        let (piece, later) = rest.split_at(rest.len().min(LINES));
        let start = write_lines(&mut room, piece);
        put_all(sink, &room[start..])?;
        rest = later;
    }
    Ok(())
}

// Writes the lines of the blocks, so that they end where the room does, and answers where they start.
fn write_lines(room: &mut [u8], blocks: &[u32]) -> usize
    requires { 11 * length blocks.now ≤ length room.old }
    ensures start { result ≤ length room.new }
    ensures text { drop result room.new ≡ text_of_part blocks.now }
{
    let mut start = room.len();
    'lines: for block in blocks.iter().rev() {
        room[start - 1] = b'\n';
        start = write_digits(u64::from(*block), room, start - 1);
    }
    start
}
