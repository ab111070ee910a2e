ghost use Rattle.std.specs.Prelude.{◌≡◌, ℕ, List, Ok, Err};
ghost use Rattle.hg_defs.specs.Hypergraph.{Hyper};
ghost use Rattle.hg_text.specs.Kept.{reading};
ghost use Rattle.hmetis_read.specs.declared.fault.GraphFault.{GraphFault};
ghost use Rattle.hmetis_read.specs.Graph.{graph};
ghost use Rattle.hmetis_read.specs.Laws.{IsAtPlace, IsFirstFault, HasLines};

/// Each text spells a hypergraph or has a first fault, which stands at a kept line or behind the
/// last line, and before which no line has a fault. Where it spells one, its kept lines are those of the header, the
/// nets and the
/// vertices alone.
pub fn text_laws()
    ensures placed { (bytes : List ℕ) → IsAtPlace (reading bytes) (graph bytes) }
    ensures first { (bytes : List ℕ) (fault : GraphFault) → graph bytes ≡ Err fault → IsFirstFault (reading bytes)
        fault }
    ensures lines { (bytes : List ℕ) (h : Hyper) → graph bytes ≡ Ok h → HasLines (reading bytes) h }
{}
