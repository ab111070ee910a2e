//! The laws of clustering: each is the contract of a function that does nothing.

ghost use Rattle.std.specs.Prelude.{◌≡◌, ℕ, ◌+◌, ◌-◌, ◌<◌, ◌≤◌, true, List, length, map, nat_eq, if◌then◌else◌};
ghost use Rattle.std.specs.List.{range_with_len};
ghost use Rattle.hg_defs.specs.Hypergraph.{vertex_count, weight_of, IsHypergraph, IsWithinLimits};
ghost use Rattle.cluster_core.specs.declared.account.Account.{Account};
ghost use Rattle.cluster_core.specs.declared.events.ClusterEvent.{ClusterEvent};
ghost use Rattle.cluster_core.specs.State.{Setup, State, Readings, Word, Mark, Mass, Writes};
ghost use Rattle.cluster_core.specs.State.{account, read, readings, opened};
ghost use Rattle.cluster_core.specs.Events.{is_enabled, pass_of, word_of, write_of};
ghost use Rattle.cluster_core.specs.Events.{accounts_after, after, root_at, vertex_at};
ghost use Rattle.cluster_core.specs.Run.{run_of, all_enabled};
ghost use Rattle.cluster_core.specs.Balance.{InBalance, IsClusterState, KeepsDecided};
ghost use Rattle.hg_defs.specs.Numbering.{IsRooted};
ghost use Rattle.cluster_core.specs.Roots.{root_in};

/// Each event keeps the balance, whatever keeps the words: where the event is enabled and `r'` reads as
/// `r` but for what the event writes, the balance holds again of `r'` and the accounts after it.
pub fn events_keep_balance()
    ensures take { (g : Setup) (r r' : Readings) (accounts : List Account) (pass vertex : ℕ) →
        InBalance g r accounts →
        is_enabled g accounts (ClusterEvent.Take pass vertex) ≡ true → Writes g r r' (Mark vertex)
        (if nat_eq (r.mark vertex) 0 then 1 else r.mark vertex) →
        InBalance g r' (accounts_after g accounts (ClusterEvent.Take pass vertex) (r.mark vertex)) }
    ensures root { (g : Setup) (r r' : Readings) (accounts : List Account) (pass vertex : ℕ) →
        InBalance g r accounts →
        is_enabled g accounts (ClusterEvent.Root pass vertex) ≡ true → Writes g r r' (Mark vertex) (vertex + 2) →
        InBalance g r' (accounts_after g accounts (ClusterEvent.Root pass vertex) (r.mark vertex)) }
    ensures add { (g : Setup) (r r' : Readings) (accounts : List Account) (pass vertex root : ℕ) →
        InBalance g r accounts → is_enabled g accounts (ClusterEvent.Add pass vertex root) ≡ true →
        Writes g r r' (Mass root) (r.mass root + weight_of g.graph vertex) →
        InBalance g r' (accounts_after g accounts (ClusterEvent.Add pass vertex root) (r.mass root)) }
    ensures take_back { (g : Setup) (r r' : Readings) (accounts : List Account) (pass : ℕ) → InBalance g r accounts →
        is_enabled g accounts (ClusterEvent.TakeBack pass) ≡ true → let stage = (account accounts pass).stage in
        Writes g r r' (Mass (root_at stage)) (r.mass (root_at stage) - weight_of g.graph (vertex_at stage)) →
        InBalance g r' (accounts_after g accounts (ClusterEvent.TakeBack pass) (r.mass (root_at stage))) }
    ensures follow { (g : Setup) (r r' : Readings) (accounts : List Account) (pass : ℕ) → InBalance g r accounts →
        is_enabled g accounts (ClusterEvent.Follow pass) ≡ true → let stage = (account accounts pass).stage in
        Writes g r r' (Mark (vertex_at stage)) (root_at stage + 2) →
        InBalance g r' (accounts_after g accounts (ClusterEvent.Follow pass) (r.mark (vertex_at stage))) }
    ensures peek { (g : Setup) (r r' : Readings) (accounts : List Account) (pass vertex : ℕ) →
        InBalance g r accounts →
        is_enabled g accounts (ClusterEvent.Peek pass vertex) ≡ true → Writes g r r' (Mark vertex) (r.mark vertex) →
        InBalance g r' (accounts_after g accounts (ClusterEvent.Peek pass vertex) (r.mark vertex)) }
    ensures split { (g : Setup) (r r' : Readings) (accounts : List Account) (pass : ℕ) → InBalance g r accounts →
        is_enabled g accounts (ClusterEvent.Split pass) ≡ true → Writes g r r' (Mark 0) (r.mark 0) →
        InBalance g r' (accounts_after g accounts (ClusterEvent.Split pass) (r.mark 0)) }
    ensures join { (g : Setup) (r r' : Readings) (accounts : List Account) (pass other : ℕ) → InBalance g r accounts →
        is_enabled g accounts (ClusterEvent.Join pass other) ≡ true → Writes g r r' (Mark 0) (r.mark 0) →
        InBalance g r' (accounts_after g accounts (ClusterEvent.Join pass other) (r.mark 0)) }
{}

/// No event changes a decided mark.
pub fn decided_marks_stay()
    ensures { (g : Setup) (r r' : Readings) (accounts : List Account) (x : ClusterEvent) → InBalance g r accounts →
        is_enabled g accounts x ≡ true → let a = account accounts (pass_of x) in Writes g r r' (word_of x a)
        (write_of g x a (read r (word_of x a))) → KeepsDecided g r r' }
{}

/// The balance holds at the opening, after each enabled event, and so after every list of events in
/// which each is enabled at its turn.
pub fn balance_is_kept()
    ensures opening { (g : Setup) (passes : ℕ) → 0 < vertex_count g.graph → IsWithinLimits g.graph → passes ≤ 64 →
        IsClusterState g (opened g passes) }
    ensures event { (g : Setup) (s : State) (x : ClusterEvent) → IsClusterState g s →
        is_enabled g s.accounts x ≡ true → IsClusterState g (after g s x) }
    ensures list { (g : Setup) (s : State) (xs : List ClusterEvent) → IsClusterState g s → all_enabled g s xs ≡ true →
        IsClusterState g (run_of g s xs) }
{}

/// At every moment the marks tell clusters within the cap and of free vertices alone, a vertex that
/// isn't decided being its own root.
pub fn roots_are_within_cap()
    ensures { (g : Setup) (r : Readings) (accounts : List Account) → InBalance g r accounts →
        IsRooted g.graph g.cap (map (λ v. root_in (r.mark v) v) (range_with_len 0 (vertex_count g.graph))) }
{}
