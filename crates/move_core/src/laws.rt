//! The laws of the books: each is the contract of a function that does nothing.
//!
//! They are over a setup, readings of the words and the accounts of all passes, whatever keeps the
//! words; a state of `Books` is one instance.

ghost use Rattle.std.specs.Prelude.{◌≡◌, ◌≢◌, ℕ, ◌+◌, ◌^◌, ◌<◌, ◌≤◌, true, List, [], ◌∷◌, length};
ghost use Rattle.std.specs.Prelude.{replicate, All, AllPairs, ℤ, pos, ◌-ℤ◌};
ghost use Rattle.hg_defs.specs.declared.moves.Move.{Move};
ghost use Rattle.hg_defs.specs.Sums.{total, total_z, sum_below};
ghost use Rattle.hg_defs.specs.Hypergraph.{vertex_count, net_count, net_of};
ghost use Rattle.hg_defs.specs.Partition.{block_of, load, IsPartition, Fits};
ghost use Rattle.hg_defs.specs.Cost.{cost};
ghost use Rattle.hg_defs.specs.Replay.{replay_first};
ghost use Rattle.move_core.specs.declared.account.Account.{Account};
ghost use Rattle.move_core.specs.declared.events.Event.{Event};
ghost use Rattle.move_core.specs.State.{Setup, Readings, State, account_in, blank, opened, times, IsOpening};
ghost use Rattle.move_core.specs.Events.{is_enabled, is_enabled_for, is_word, is_holding, word_for};
ghost use Rattle.move_core.specs.Events.{found_for, write_for, removed_for, accounts_after_for, WritesWord};
ghost use Rattle.move_core.specs.Events.{state_after, moved_vertices, price_at};
ghost use Rattle.move_core.specs.Run.{run_of, all_enabled};
ghost use Rattle.move_core.specs.Balance.{IsSetup, IsBooks, InBalance, refused_weight, granted_weight, arrived};
ghost use Rattle.move_core.specs.Balance.{departed, moves_before, renamed, pins_carried};
ghost use Rattle.move_core.specs.AtRest.{IsAtRest, AreLive, AreInOrder, IsRoundMove, Tells};
ghost use Rattle.move_core.specs.AtRest.{moves_in_order, closing, booked_by_worker};

/// An event that happens keeps the books in balance, whatever keeps the words: the laws of one step
/// are over readings of the words and the accounts of all passes. The word of an enabled event exists.
pub fn events_keep_balance()
    ensures word { (g : Setup) (r : Readings) (accounts : List Account) (x : Event) → IsSetup g →
        InBalance g r accounts → is_enabled_for g accounts x ≡ true → is_word g (word_for g accounts x) ≡ true }
    ensures balance { (g : Setup) (r r' : Readings) (accounts : List Account) (x : Event) → IsSetup g →
        InBalance g r accounts → is_enabled_for g accounts x ≡ true → WritesWord g (word_for g accounts x)
        (write_for g accounts x (found_for g r accounts x)) r r' →
        InBalance g r' (accounts_after_for g accounts x (found_for g r accounts x)) }
{}

/// Words that read as at the opening are in balance with passes that have nothing: with one, and
/// with at most 64.
pub fn openings_are_in_balance()
    ensures alone { (g : Setup) (r : Readings) → IsSetup g → IsOpening g r → InBalance g r (blank true ∷ []) }
    ensures passes { (g : Setup) (r : Readings) (passes : ℕ) → IsSetup g → IsOpening g r → passes ≤ 64 →
        InBalance g r (replicate passes (blank true)) }
{}

/// The books are in balance at the opening, after each enabled event, and so after every list of
/// events in which each is enabled at its turn.
pub fn balance_is_kept()
    ensures opening { (s : Setup) (passes : ℕ) → IsSetup s → passes ≤ 64 → IsBooks (opened s passes) }
    ensures event { (s : State) (x : Event) → IsBooks s → is_enabled s x ≡ true → IsBooks (state_after s x) }
    ensures list { (s : State) (xs : List Event) → IsBooks s → all_enabled s xs ≡ true → IsBooks (run_of s xs) }
{}

/// No count passes the number of pins of its net, and no Lower finds 0.
pub fn counts_are_pins()
    ensures most { (g : Setup) (r : Readings) (accounts : List Account) (e b : ℕ) → IsSetup g →
        InBalance g r accounts → e < net_count g.graph → b < g.blocks → r.count e b ≤ length (net_of g.graph e).pins }
    ensures least { (g : Setup) (r : Readings) (accounts : List Account) (pass : ℕ) → IsSetup g →
        InBalance g r accounts → is_enabled_for g accounts (Event.Lower pass) ≡ true → 1 ≤ found_for g r accounts
        (Event.Lower pass) }
{}

/// No event writes a number past 64 bits, and none takes more from its word than it finds there.
pub fn words_are_in_range()
    ensures most { (g : Setup) (r : Readings) (accounts : List Account) (x : Event) → IsSetup g →
        InBalance g r accounts → is_enabled_for g accounts x ≡ true →
        write_for g accounts x (found_for g r accounts x) < 2 ^ 64 }
    ensures least { (g : Setup) (r : Readings) (accounts : List Account) (x : Event) → IsSetup g →
        InBalance g r accounts → is_enabled_for g accounts x ≡ true → removed_for g accounts x ≤ found_for g r
        accounts
        x }
{}

/// The gains of all passes sum to the cost at the opening less the cost that the spread words tell.
/// Where every pass is between two moves, that is the cost of the partition to which the moves lead.
pub fn gains_are_savings()
    ensures words { (g : Setup) (r : Readings) (accounts : List Account) → InBalance g r accounts →
        total_z (λ a. a.gain) accounts ≡ pos (cost g.graph g.opening) -ℤ pos
        (sum_below (λ e. price_at g.graph e (r.spread e)) (net_count g.graph)) }
    ensures partition { (g : Setup) (r : Readings) (accounts : List Account) → IsAtRest g r accounts →
        total_z (λ a. a.gain) accounts ≡ pos (cost g.graph g.opening) -ℤ pos (cost g.graph (closing g r accounts)) }
{}

/// No block is past the limit: neither by its word without what was refused and is still to be taken
/// back, nor by what was granted, nor by the moves alone that drew a number below any bound. Where
/// every pass is between two moves, each prefix of the moves by their numbers leads to a partition
/// that fits.
pub fn grants_are_within_limit()
    ensures words { (g : Setup) (r : Readings) (accounts : List Account) (b : ℕ) → InBalance g r accounts →
        b < g.blocks → r.load b ≤ g.limit + total (λ a. refused_weight g.graph b a.stage) accounts }
    ensures grants { (g : Setup) (r : Readings) (accounts : List Account) (b : ℕ) → InBalance g r accounts →
        b < g.blocks → load g.graph g.opening b + total (λ a. granted_weight g.graph b a.stage + arrived g.graph b
        a.moves) accounts ≤ g.limit + total (λ a. departed g.graph b a.moves) accounts }
    ensures numbers { (g : Setup) (r : Readings) (accounts : List Account) (i b : ℕ) → InBalance g r accounts →
        b < g.blocks → load g.graph g.opening b + total (λ a. arrived g.graph b (moves_before i a)) accounts ≤
        g.limit + total (λ a. departed g.graph b (moves_before i a)) accounts }
    ensures prefixes { (g : Setup) (r : Readings) (accounts : List Account) (i : ℕ) → IsAtRest g r accounts →
        Fits g.graph g.blocks g.limit (replay_first g.opening (moves_in_order accounts r.next) i) }
{}

/// Each vertex moves at most once, by all passes together.
pub fn vertices_move_once()
    ensures { (g : Setup) (r : Readings) (accounts : List Account) (v : ℕ) → InBalance g r accounts →
        v < vertex_count g.graph → total (λ a. times v (moved_vertices a)) accounts ≤ 1 }
{}

/// Where every pass is between two moves, the words tell exactly the partition to which all moves
/// lead in the order of their numbers, and it fits.
pub fn words_tell_the_partition()
    ensures partition { (g : Setup) (r : Readings) (accounts : List Account) → IsAtRest g r accounts →
        IsPartition g.graph g.blocks (closing g r accounts) }
    ensures words { (g : Setup) (r : Readings) (accounts : List Account) → IsAtRest g r accounts →
        Tells g r (closing g r accounts) }
    ensures fits { (g : Setup) (r : Readings) (accounts : List Account) → IsAtRest g r accounts →
        Fits g.graph g.blocks g.limit (closing g r accounts) }
{}

/// Where every pass is between two moves, the moves in order are those of the passes, each at the
/// place of its number, and no other list is that. Each moves another free vertex to another block.
/// A Join leaves them as they are.
pub fn moves_are_in_order()
    ensures order { (g : Setup) (r : Readings) (accounts : List Account) → IsAtRest g r accounts →
        AreInOrder accounts r.next (moves_in_order accounts r.next) }
    ensures only { (g : Setup) (r : Readings) (accounts : List Account) (moves : List Move) → IsAtRest g r accounts →
        AreInOrder accounts r.next moves → moves ≡ moves_in_order accounts r.next }
    ensures moves { (g : Setup) (r : Readings) (accounts : List Account) → IsAtRest g r accounts →
        All (IsRoundMove g (length accounts)) (moves_in_order accounts r.next) }
    ensures once { (g : Setup) (r : Readings) (accounts : List Account) → IsAtRest g r accounts →
        AllPairs (λ m n. m.vertex ≢ n.vertex) (moves_in_order accounts r.next) }
    ensures joined { (g : Setup) (r : Readings) (accounts : List Account) (i j : ℕ) → IsAtRest g r accounts →
        is_enabled_for g accounts (Event.Join i j) ≡ true →
        moves_in_order (accounts_after_for g accounts (Event.Join i j) (found_for g r accounts (Event.Join i j)))
        r.next ≡ moves_in_order accounts r.next }
{}

/// Where every pass is between two moves, the gain of a pass is the sum of what its moves booked, and
/// where every pass lives, it is the sum of what the moves booked that bear its number.
pub fn gains_are_of_workers()
    ensures own { (g : Setup) (r : Readings) (accounts : List Account) → IsAtRest g r accounts →
        All (λ a. a.gain ≡ total_z (λ m. m.booked) a.moves) accounts }
    ensures workers { (g : Setup) (r : Readings) (accounts : List Account) (i : ℕ) → IsAtRest g r accounts →
        AreLive accounts → i < length accounts → (account_in accounts i).gain ≡ booked_by_worker i
        (moves_in_order accounts r.next) }
{}

/// What a pass reads back of what it did: the name of a vertex that it moved, the claim of one that it
/// holds, a count of at least the pins that it carried there, a load of at least the weight, and a
/// cursor of at least its own draws. Every name is a block, and that of a vertex that it holds and
/// whose name it hasn't written is the block at the opening.
pub fn passes_read_back()
    ensures names { (g : Setup) (r : Readings) (accounts : List Account) (i : ℕ) → InBalance g r accounts →
        All (λ m. r.name m.vertex ≡ m.to) (account_in accounts i).moves }
    ensures claims { (g : Setup) (r : Readings) (accounts : List Account) (i v : ℕ) → InBalance g r accounts →
        is_holding (account_in accounts i) v ≡ true → r.claim v ≡ 1 }
    ensures counts { (g : Setup) (r : Readings) (accounts : List Account) (i e b : ℕ) → IsSetup g →
        InBalance g r accounts → e < net_count g.graph → b < g.blocks →
        pins_carried g.graph e b (account_in accounts i) ≤ r.count e b }
    ensures loads { (g : Setup) (r : Readings) (accounts : List Account) (i b : ℕ) → IsSetup g →
        InBalance g r accounts → b < g.blocks → arrived g.graph b (account_in accounts i).moves ≤ r.load b }
    ensures cursor { (g : Setup) (r : Readings) (accounts : List Account) (i : ℕ) → InBalance g r accounts →
        (account_in accounts i).seeds ≤ r.cursor }
    ensures blocks { (g : Setup) (r : Readings) (accounts : List Account) (v : ℕ) → IsSetup g →
        InBalance g r accounts → v < vertex_count g.graph → r.name v < g.blocks }
    ensures unmoved { (g : Setup) (r : Readings) (accounts : List Account) (i v : ℕ) → InBalance g r accounts →
        is_holding (account_in accounts i) v ≡ true → times v (renamed (account_in accounts i)) ≡ 0 →
        r.name v ≡ block_of g.opening v }
{}
