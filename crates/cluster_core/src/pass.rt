ghost use Rattle.std.specs.Prelude.{◌≡◌, ◌+◌, ◌≤◌, IfOk, OnOk, OnErr, true, nat_eq};
ghost use Rattle.std.specs.Ordering.{nat_cmp};
ghost use Rattle.std.specs.BTreeSet.{insert_key};
ghost use Rattle.std.specs.Set.{remove_key};
ghost use Rattle.cluster_core.specs.State.{blank};
ghost use Rattle.cluster_core.specs.Events.{took, learned, rooted, followed, idle, joined_with};
ghost use Rattle.cluster_core.specs.Events.{all_inserted, has_taken, knows};

use crate::account::Stage;
use hg_base::NoMemory;
use std::alloc::Global;
use std::collections::BTreeSet;
use std::marker::Model;

/// What a pass has.
#[derive(Drop)]
pub(crate) struct Pass {
    live: bool,
    taken: BTreeSet<u32>,
    known: BTreeSet<u32>,
    stage: Stage,
}

impl Model for Pass {
    ghost use Rattle.cluster_core.specs.declared.account.Account.{Account};

    ghost Value = { Account };

    ghost view = { λ p. record { live = p.live; taken = p.taken.keys; known = p.known.keys; stage = p.stage } };
}

impl Pass {
    /// Makes a pass that has nothing.
    pub(crate) fn blank(alloc: Global, live: bool) -> Self
        ensures { result ≡ blank live }
    {
        Pass {
            live,
            taken: BTreeSet::new(alloc),
            known: BTreeSet::new(alloc),
            stage: Stage::Idle,
        }
    }

    pub(crate) fn is_live(&self) -> bool
        ensures { result ≡ self.now.live }
    {
        self.live
    }

    pub(crate) fn stage(&self) -> Stage
        ensures { result ≡ self.now.stage }
    {
        self.stage
    }

    /// Whether the pass has taken the vertex.
    pub(crate) fn has_taken(&self, vertex: u32) -> bool
        ensures { result ≡ has_taken self.now vertex }
    {
        self.taken.contains(&vertex)
    }

    /// Whether the pass knows the root.
    pub(crate) fn knows(&self, root: u32) -> bool
        ensures { result ≡ knows self.now root }
    {
        self.known.contains(&root)
    }

    pub(crate) fn set_stage(&mut self, stage: Stage)
        ensures { self.new ≡ record self.old { stage = stage } }
    {
        self.stage = stage;
    }

    /// Takes one vertex more. Where there is no memory, nothing changes.
    pub(crate) fn take(&mut self, vertex: u32) -> Result<(), NoMemory>
        ensures ok { OnOk result (self.new ≡ took vertex 0 self.old) }
        ensures err { OnErr result (self.new ≡ self.old) }
    {
        self.taken.insert(vertex)?;
        Ok(())
    }

    /// Learns one root more. Where there is no memory, nothing changes.
    pub(crate) fn learn(&mut self, root: u32) -> Result<(), NoMemory>
        ensures ok { OnOk result (self.new ≡ record self.old { known = insert_key nat_cmp self.old.known root }) }
        ensures err { OnErr result (self.new ≡ self.old) }
    {
        self.known.insert(root)?;
        Ok(())
    }

    /// Makes a vertex a root. Where there is no memory, nothing changes.
    pub(crate) fn root(&mut self, vertex: u32) -> Result<(), NoMemory>
        ensures ok { OnOk result (self.new ≡ rooted vertex self.old) }
        ensures err { OnErr result (self.new ≡ self.old) }
    {
        self.known.insert(vertex)?;
        self.taken.remove(&vertex);
        Ok(())
    }

    /// Lets the vertex of the stage follow its root.
    pub(crate) fn follow(&mut self)
        ensures { self.new ≡ followed self.old }
    {
        let vertex = self.stage.vertex();
        self.taken.remove(&vertex);
        self.stage = Stage::Idle;
    }

    /// Makes a pass with what this one and the other have.
    pub(crate) fn joined(&self, other: &Pass) -> Result<Pass, NoMemory>
        ensures { IfOk result (λ p. p ≡ joined_with self.now other.now) }
    {
        Ok(Pass {
            live: self.live,
            taken: united(&self.taken, &other.taken)?,
            known: united(&self.known, &other.known)?,
            stage: self.stage,
        })
    }
}

/// A set with the numbers of both.
fn united(these: &BTreeSet<u32>, those: &BTreeSet<u32>) -> Result<BTreeSet<u32>, NoMemory>
    ensures { IfOk result (λ all. all.keys ≡ all_inserted these.now.keys those.now.keys) }
{
    let mut all = these.clone()?;
    for number in those {
        all.insert(*number)?;
    }
    Ok(all)
}
