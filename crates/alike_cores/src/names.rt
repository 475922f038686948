//! What is made of renamed nodes, collections and readings. `to` gives each key a new one, and `id`
//! each collection a new number.
ghost use Rattle.std.specs.Prelude.{◌≡◌, ◌+◌, List, map, ℕ};
ghost use Rattle.sm_names.specs.declared.messages.Call.{Call};
ghost use Rattle.sm_names.specs.Answers.{Readings, answer};
ghost use Rattle.sm_names.specs.Bounds.{Bound};
ghost use Rattle.core_state.specs.Reads.{readings_of};
ghost use Rattle.core_state.specs.State.{State};
ghost use Rattle.alike_cores.specs.Alike.{AreAlike, IsRenamed, KeepsIds, call_renamed, reply_renamed};
ghost use Rattle.sm_names.specs.declared.keys.NodeKey.{NodeKey};
ghost use Rattle.sm_names.specs.declared.outcomes.Fault.{Fault};
ghost use Rattle.forest_store.specs.declared.node.Node.{Node};
ghost use Rattle.forest_store.specs.Nodes.{after_loss};
ghost use Rattle.std.specs.Option.{option_map};
ghost use Rattle.sm_names.specs.Forced.{Standing, forced};
ghost use Rattle.sm_names.specs.declared.keys.Interval.{Interval};
ghost use Rattle.forest_store.specs.Forest.{Collection};
ghost use Rattle.forest_store.specs.declared.change.Change.{Change};
ghost use Rattle.forest_store.specs.declared.node.End.{End};
ghost use Rattle.forest_store.specs.Forest.{tidied, with_nodes};
ghost use Rattle.forest_store.specs.Nodes.{with_end};
ghost use Rattle.forest_store.specs.Settling.{Handles, Settles, changed, given_back};
ghost use Rattle.alike_cores.specs.Renamed.{CountsAlike, KeepsKeys, change_renamed, collection_renamed, fault_renamed, mark_renamed, node_renamed, standing_renamed};

/// A loss takes the same nodes under any names: nodes that are renamed and then lost are those that
/// are lost and then renamed.
pub fn a_loss_reads_no_names()
    ensures { (to : NodeKey → NodeKey) (id : ℕ → ℕ) → KeepsKeys to →
        (fault : Fault) (nodes : List Node) →
        after_loss (fault_renamed to fault) (map (node_renamed to id) nodes)
        ≡ map (node_renamed to id) (after_loss fault nodes) }
{}

/// The same step is forced under any names.
pub fn forced_steps_read_no_names()
    ensures { (to : NodeKey → NodeKey) → KeepsKeys to → (pool : ℕ) (s : Standing) →
        forced pool (standing_renamed to s) ≡ option_map (mark_renamed to) (forced pool s) }
{}

/// A renamed collection settles to the renamed one, with the pages at the same places.
pub fn settling_reads_no_names()
    ensures { (to : NodeKey → NodeKey) (id : ℕ → ℕ) → KeepsKeys to →
        (pool : ℕ) (before after : Handles) → CountsAlike id before after →
        (others : List Interval) (c last : Collection) → Settles pool before others c last →
        Settles pool after others (collection_renamed to id c) (collection_renamed to id last) }
{}

/// A renamed call is answered by the renamed reply, where all that answers read is alike. A new
/// collection, client or tracker has the number of its event, which becomes the number of the other
/// event.
pub fn answers_read_no_names()
    ensures { (to : NodeKey → NodeKey) (id number : ℕ → ℕ) (limits : Bound) (r s : Readings) →
        AreAlike to id r s →
        id (r.events + 1) ≡ s.events + 1 → number (r.events + 1) ≡ s.events + 1 →
        (client : ℕ) (new : NodeKey) (call : Call) →
        answer limits s client (to new) (call_renamed to id call)
        ≡ reply_renamed to id number (answer limits r client new call) }
{}

/// A change, the return of pages, a move of an end, and the forgetting of nodes make of a renamed
/// collection what they make of the collection, renamed.
pub fn changes_read_no_names()
    ensures changed { (to : NodeKey → NodeKey) (id : ℕ → ℕ) → KeepsKeys to →
        (change : Change) (key : NodeKey) (c : Collection) →
        changed (change_renamed to change) (to key) (collection_renamed to id c)
        ≡ collection_renamed to id (changed change key c) }
    ensures given { (to : NodeKey → NodeKey) (id : ℕ → ℕ) → KeepsKeys to →
        (before after : Handles) → CountsAlike id before after → (c : Collection) →
        given_back after (collection_renamed to id c)
        ≡ collection_renamed to id (given_back before c) }
    ensures ends { (to : NodeKey → NodeKey) (id : ℕ → ℕ) → KeepsKeys to →
        (key : NodeKey) (end : End) (c : Collection) →
        with_nodes (map (with_end (to key) end)) (collection_renamed to id c)
        ≡ collection_renamed to id (with_nodes (map (with_end key end)) c) }
    ensures forgotten { (to : NodeKey → NodeKey) (id : ℕ → ℕ) → KeepsKeys to → (c : Collection) →
        tidied (collection_renamed to id c) ≡ collection_renamed to id (tidied c) }
{}

/// All that answers read of a renamed state is alike.
pub fn readings_read_no_names()
    ensures { (to : NodeKey → NodeKey) (id : ℕ → ℕ) → KeepsKeys to → KeepsIds id →
        (s t : State) → IsRenamed to id s t →
        AreAlike to id (readings_of s) (readings_of t) }
{}
