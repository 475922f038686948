//! What one more mark changes, and what it leaves the same.
ghost use Rattle.std.specs.Prelude.{◌≡◌, ◌∷◌, ℕ, map, Some, true, false, ◌+◌};
ghost use Rattle.sm_names.specs.declared.keys.BufferName.{BufferName};
ghost use Rattle.sm_names.specs.declared.keys.NodeKey.{NodeKey};
ghost use Rattle.sm_names.specs.declared.keys.Strength.{Strength};
ghost use Rattle.sm_names.specs.declared.messages.Call.{Call};
ghost use Rattle.sm_names.specs.declared.messages.Reply.{Reply};
ghost use Rattle.sm_names.specs.declared.outcomes.Cause.{Cause};
ghost use Rattle.sm_names.specs.declared.outcomes.Refusal.{Refusal};
ghost use Rattle.sm_names.specs.Births.{Birth, births, birth_of, AreSound, AreTogether};
ghost use Rattle.sm_names.specs.Changes.{after_loss, after_allocation, after_end, highest, is_quiet, without_gone};
ghost use Rattle.sm_names.specs.Forced.{forced};
ghost use Rattle.sm_names.specs.Losses.{reaches, parent_of, gone};
ghost use Rattle.sm_names.specs.Marks.{Timeline, Called, Loss, Allocated, Ended, events};
ghost use Rattle.sm_names.specs.Members.{member, members};
ghost use Rattle.sm_names.specs.Reading.{readings};
ghost use Rattle.sm_names.specs.Sameness.{same_key};
ghost use Rattle.sm_names.specs.declared.keys.HeldBuffer.{HeldBuffer};
ghost use Rattle.sm_names.specs.Timelines.{next_forced, standing, held, still_out};
ghost use Rattle.sm_names.specs.Trackers.{fired};
ghost use Rattle.sm_names.specs.Views.{live_nodes, held_by_page};

/// A refused call changes nothing but the number of events, and no tracker fires.
pub fn refused_calls_change_nothing()
    ensures read { (marks : Timeline) (client : ℕ) (refusal : Refusal) (call : Call) →
        readings (Called client (Reply.Refused refusal) call ∷ marks)
        ≡ record (readings marks) { events = events marks + 1 } }
    ensures forced { (pool collection : ℕ) (marks : Timeline) (client : ℕ) (refusal : Refusal)
        (call : Call) →
        next_forced pool collection (Called client (Reply.Refused refusal) call ∷ marks)
        ≡ next_forced pool collection marks }
    ensures live { (marks : Timeline) (client : ℕ) (refusal : Refusal) (call : Call) →
        live_nodes (Called client (Reply.Refused refusal) call ∷ marks) ≡ live_nodes marks }
    ensures held { (pool : ℕ) (marks : Timeline) (client : ℕ) (refusal : Refusal) (call : Call) →
        held_by_page pool (Called client (Reply.Refused refusal) call ∷ marks)
        ≡ held_by_page pool marks }
    ensures fired { (marks : Timeline) (client : ℕ) (refusal : Refusal) (call : Call) →
        fired (Called client (Reply.Refused refusal) call ∷ marks) ≡ fired marks }
{}

/// A query changes nothing but the number of events, and no tracker fires. The same is true of a
/// call that is answered PeerClosed, unless it spends the end.
pub fn quiet_calls_change_nothing()
    ensures read { (marks : Timeline) (client : ℕ) (reply : Reply) (call : Call) →
        is_quiet call reply ≡ true →
        readings (Called client reply call ∷ marks)
        ≡ record (readings marks) { events = events marks + 1 } }
    ensures forced { (pool collection : ℕ) (marks : Timeline) (client : ℕ) (reply : Reply)
        (call : Call) →
        is_quiet call reply ≡ true →
        next_forced pool collection (Called client reply call ∷ marks)
        ≡ next_forced pool collection marks }
    ensures live { (marks : Timeline) (client : ℕ) (reply : Reply) (call : Call) →
        is_quiet call reply ≡ true →
        live_nodes (Called client reply call ∷ marks) ≡ live_nodes marks }
    ensures held { (pool : ℕ) (marks : Timeline) (client : ℕ) (reply : Reply) (call : Call) →
        is_quiet call reply ≡ true →
        held_by_page pool (Called client reply call ∷ marks) ≡ held_by_page pool marks }
    ensures fired { (marks : Timeline) (client : ℕ) (reply : Reply) (call : Call) →
        is_quiet call reply ≡ true →
        fired (Called client reply call ∷ marks) ≡ fired marks }
{}

/// A loss takes its reach, an allocation allocates one unit, an end takes a node and all below it,
/// and a birth adds one node. None of them changes anything else in the nodes of a collection.
pub fn marks_change_nodes()
    ensures loss { (marks : Timeline) (collection : ℕ) (origin : NodeKey) (cause : Cause) →
        members (Loss origin cause ∷ marks) collection
        ≡ map (after_loss (reaches marks origin)) (members marks collection) }
    ensures allocation { (marks : Timeline) (collection : ℕ) (head : NodeKey) →
        members (Allocated head ∷ marks) collection
        ≡ map (after_allocation head) (members marks collection) }
    ensures end { (marks : Timeline) (collection : ℕ) (top : NodeKey) →
        members (Ended top ∷ marks) collection ≡ map (after_end top) (members marks collection) }
    ensures birth { (marks : Timeline) (client collection : ℕ) (parent new : NodeKey) (b : Birth) →
        same_key new b.node ≡ false →
        member (Called client (Reply.Token new collection) (Call.Duplicate parent) ∷ marks) b
        ≡ member marks b }
{}

/// What a loss at a node takes depends only on how the nodes of its collection stand.
pub fn losses_are_read_off()
    ensures { (marks : Timeline) (b : Birth) (cause : Cause) → AreSound (births marks) →
        AreTogether (births marks) → birth_of marks b.node ≡ Some b →
        members (Loss b.node cause ∷ marks) b.collection
        ≡ map (after_end (highest (members marks b.collection) (member marks b)))
        (members marks b.collection) }
{}

/// A loss and an end take nodes and give pages back, and change nothing else that the forced steps
/// read.
pub fn losses_and_ends_give_back()
    ensures loss { (pool collection : ℕ) (marks : Timeline) (origin : NodeKey) (cause : Cause) →
        standing pool (Loss origin cause ∷ marks) collection
        ≡ record (standing pool marks collection) {
          members = map (after_loss (reaches marks origin)) (members marks collection);
          held = map (λ (h : HeldBuffer). h.pages)
              (still_out (Loss origin cause ∷ marks) (held pool marks));
        } }
    ensures end { (pool collection : ℕ) (marks : Timeline) (top : NodeKey) →
        standing pool (Ended top ∷ marks) collection
        ≡ record (standing pool marks collection) {
          members = map (after_end top) (members marks collection);
          held = map (λ (h : HeldBuffer). h.pages)
              (still_out (Ended top ∷ marks) (held pool marks));
        } }
{}

/// An allocation of an attached unit changes nodes alone: it places no buffer and gives no page
/// back.
pub fn attached_allocations_place_nothing()
    ensures { (pool collection : ℕ) (marks : Timeline) (head parent : NodeKey) →
        parent_of marks head ≡ Some parent →
        standing pool (Allocated head ∷ marks) collection
        ≡ record (standing pool marks collection) {
          members = map (after_allocation head) (members marks collection);
        } }
{}

/// A handle that is given or collected stays open: nothing that the forced steps read changes, and
/// the same buffers are held.
pub fn parcels_keep_buffers()
    ensures given { (pool collection : ℕ) (marks : Timeline) (client to : ℕ) (buffer : BufferName)
        (strength : Strength) →
        standing pool
        (Called client Reply.Done (Call.GiveHandle buffer strength to) ∷ marks) collection
        ≡ standing pool marks collection }
    ensures collected { (pool collection : ℕ) (marks : Timeline) (client : ℕ) (buffer : BufferName)
        (strength : Strength) →
        standing pool (Called client (Reply.CollectedHandle buffer strength) Call.Collect ∷ marks)
        collection ≡ standing pool marks collection }
    ensures held_as_given { (pool : ℕ) (marks : Timeline) (client to : ℕ) (buffer : BufferName)
        (strength : Strength) →
        held pool (Called client Reply.Done (Call.GiveHandle buffer strength to) ∷ marks)
        ≡ held pool marks }
    ensures held_as_collected { (pool : ℕ) (marks : Timeline) (client : ℕ) (buffer : BufferName)
        (strength : Strength) →
        held pool (Called client (Reply.CollectedHandle buffer strength) Call.Collect ∷ marks)
        ≡ held pool marks }
{}

/// Nodes that are gone may be forgotten: if each child of a gone node is gone, the forced steps are
/// the same without the gone nodes.
pub fn gone_nodes_may_be_forgotten()
    ensures { (pool collection : ℕ) (marks : Timeline) → AreSound (births marks) →
        ((child parent : NodeKey) → parent_of marks child ≡ Some parent → gone marks parent ≡ true →
        gone marks child ≡ true) →
        forced pool (without_gone (standing pool marks collection))
        ≡ next_forced pool collection marks }
{}
