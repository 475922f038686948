//! What one event does to clients, parcels and ends.
ghost use Rattle.std.specs.Prelude.{◌≡◌, ◌≤◌, if◌then◌else◌, ◌&&◌, ◌||◌, ◌+◌, ◌∷◌, ◌++◌, ℕ, List, [], Some, None, not, true, false};
ghost use Rattle.std.specs.List.{cons_option, list_any, sum_by};
ghost use Rattle.std.specs.Option.{option_map_or};
ghost use Rattle.sm_names.specs.declared.keys.Kind.{Kind};
ghost use Rattle.sm_names.specs.declared.keys.NodeKey.{NodeKey};
ghost use Rattle.sm_names.specs.declared.keys.BufferName.{BufferName};
ghost use Rattle.sm_names.specs.declared.keys.Strength.{Strength};
ghost use Rattle.sm_names.specs.declared.messages.Parcel.{Parcel};
ghost use Rattle.sm_names.specs.Births.{Birth, birth_at, births, was_born};
ghost use Rattle.sm_names.specs.Bounds.{Bound};
ghost use Rattle.event_laws.specs.ByEvent.{collected_at, delivers, entry_mark, is_end, one_if, sends};
ghost use Rattle.sm_names.specs.Ends.{binds, clients, collector_at, given_at, has_joined, holder, in_transit, is_end_of, is_handle_of, is_shut, joined_at, kind, parcels, shuts, spends, spent};
ghost use Rattle.sm_names.specs.Handles.{moving};
ghost use Rattle.sm_names.specs.Kept.{kept_nodes};
ghost use Rattle.sm_names.specs.Legality.{IsLegal};
ghost use Rattle.sm_names.specs.Marks.{Entry, events};
ghost use Rattle.sm_names.specs.Timelines.{timeline};
ghost use Rattle.sm_names.specs.Words.{times};

/// A Join adds the client that it made, whose number is the event's and that never joined before, and a
/// Shut shuts its caller. Every other event changes neither the clients nor which of them are shut.
pub fn events_make_and_shut_clients()
    ensures joined { (pool : ℕ) (limits : Bound) (history : List Entry) (entry : Entry) →
        IsLegal pool limits (history ++ entry ∷ []) →
        clients (timeline pool (history ++ entry ∷ []))
        ≡ cons_option (joined_at (entry_mark entry)) (clients (timeline pool history)) }
    ensures made { (pool : ℕ) (limits : Bound) (history : List Entry) (entry : Entry) →
        IsLegal pool limits (history ++ entry ∷ []) → (made : ℕ) →
        joined_at (entry_mark entry) ≡ Some made →
        (made ≡ events (timeline pool history) + 1)
        × (has_joined (timeline pool history) made ≡ false) }
    ensures shut { (pool : ℕ) (limits : Bound) (history : List Entry) (entry : Entry) →
        IsLegal pool limits (history ++ entry ∷ []) → (client : ℕ) →
        is_shut (timeline pool (history ++ entry ∷ [])) client
        ≡ (shuts client (entry_mark entry) || is_shut (timeline pool history) client) }
{}

/// A parcel that an event gives to a client waits last, and one that the client gets waited first.
/// Every other event changes nothing of what waits for it. Nothing waits for a client that has not joined.
pub fn events_move_parcels()
    ensures given { (pool : ℕ) (limits : Bound) (history : List Entry) (entry : Entry) →
        IsLegal pool limits (history ++ entry ∷ []) → (client : ℕ) (parcel : Parcel) →
        given_at client (entry_mark entry) ≡ Some parcel →
        parcels (timeline pool (history ++ entry ∷ [])) client
        ≡ parcels (timeline pool history) client ++ parcel ∷ [] }
    ensures collected { (pool : ℕ) (limits : Bound) (history : List Entry) (entry : Entry) →
        IsLegal pool limits (history ++ entry ∷ []) → (client : ℕ) (parcel : Parcel) →
        collected_at client (entry_mark entry) ≡ Some parcel →
        parcels (timeline pool history) client
        ≡ parcel ∷ parcels (timeline pool (history ++ entry ∷ [])) client }
    ensures kept { (pool : ℕ) (limits : Bound) (history : List Entry) (entry : Entry) →
        IsLegal pool limits (history ++ entry ∷ []) → (client : ℕ) →
        collected_at client (entry_mark entry) ≡ None → given_at client (entry_mark entry) ≡ None →
        parcels (timeline pool (history ++ entry ∷ [])) client
        ≡ parcels (timeline pool history) client }
    ensures strangers { (pool : ℕ) (limits : Bound) (history : List Entry) →
        IsLegal pool limits history → (client : ℕ) →
        has_joined (timeline pool history) client ≡ false →
        parcels (timeline pool history) client ≡ [] }
{}

/// In a legal history an end is in one parcel at most, and one that is in a parcel is that of a
/// node, and is not spent.
pub fn ends_are_in_one_parcel()
    ensures once { (pool : ℕ) (limits : Bound) (history : List Entry) →
        IsLegal pool limits history →
        (node : NodeKey) →
        sum_by (λ client. times (is_end_of node) (parcels (timeline pool history) client))
        (clients (timeline pool history))
        ≡ one_if (in_transit (timeline pool history) node) }
    ensures waits { (pool : ℕ) (limits : Bound) (history : List Entry) →
        IsLegal pool limits history →
        (node : NodeKey) (client : ℕ) →
        list_any (is_end_of node) (parcels (timeline pool history) client) ≡ true →
        in_transit (timeline pool history) node ≡ true }
    ensures born { (pool : ℕ) (limits : Bound) (history : List Entry) →
        IsLegal pool limits history →
        (node : NodeKey) → in_transit (timeline pool history) node ≡ true →
        was_born (births (timeline pool history)) node ≡ true }
    ensures unspent { (pool : ℕ) (limits : Bound) (history : List Entry) →
        IsLegal pool limits history →
        (node : NodeKey) → in_transit (timeline pool history) node ≡ true →
        spent (timeline pool history) node ≡ false }
{}

/// In a legal history, no more ends wait for a client than nodes are kept, and no more handles of a
/// buffer and strength than are in parcels. So the limits of nodes and of handles bound what waits.
pub fn waiting_parcels_are_bounded()
    ensures ends { (pool : ℕ) (limits : Bound) (history : List Entry) →
        IsLegal pool limits history → (client : ℕ) →
        times is_end (parcels (timeline pool history) client)
        ≤ kept_nodes (timeline pool history) }
    ensures handles { (pool : ℕ) (limits : Bound) (history : List Entry) →
        IsLegal pool limits history → (client : ℕ) (buffer : BufferName) (strength : Strength) →
        times (is_handle_of buffer strength) (parcels (timeline pool history) client)
        ≤ moving (timeline pool history) buffer strength }
{}

/// A Close or a Release spends an end, a Give puts one into a parcel and leaves its holder, and a
/// Collect takes one out and makes its caller the holder, and a Bind makes a collection of a token:
/// every other event changes none of the ends that there are. A new node's end is its caller's token.
pub fn events_move_ends()
    ensures spent { (pool : ℕ) (limits : Bound) (history : List Entry) (entry : Entry) →
        IsLegal pool limits (history ++ entry ∷ []) → (node : NodeKey) →
        spent (timeline pool (history ++ entry ∷ [])) node
        ≡ (spends node (entry_mark entry) || spent (timeline pool history) node) }
    ensures in_transit { (pool : ℕ) (limits : Bound) (history : List Entry) (entry : Entry) →
        IsLegal pool limits (history ++ entry ∷ []) → (node : NodeKey) →
        in_transit (timeline pool (history ++ entry ∷ [])) node
        ≡ (sends node (entry_mark entry)
        || (in_transit (timeline pool history) node && not (delivers node (entry_mark entry)))) }
    ensures holder { (pool : ℕ) (limits : Bound) (history : List Entry) (entry : Entry) →
        IsLegal pool limits (history ++ entry ∷ []) → (node : NodeKey) →
        was_born (births (timeline pool history)) node ≡ true →
        holder (timeline pool (history ++ entry ∷ [])) node
        ≡ option_map_or (λ c. c) (collector_at node (entry_mark entry))
        (holder (timeline pool history) node) }
    ensures kind { (pool : ℕ) (limits : Bound) (history : List Entry) (entry : Entry) →
        IsLegal pool limits (history ++ entry ∷ []) → (node : NodeKey) →
        kind (timeline pool (history ++ entry ∷ [])) node
        ≡ (if binds node (entry_mark entry) then Kind.Collection
        else kind (timeline pool history) node) }
    ensures born { (pool : ℕ) (limits : Bound) (history : List Entry) (entry : Entry) →
        IsLegal pool limits (history ++ entry ∷ []) → (b : Birth) →
        birth_at (events (timeline pool history) + 1) (entry_mark entry) ≡ Some b →
        (spent (timeline pool (history ++ entry ∷ [])) b.node ≡ false)
        × (in_transit (timeline pool (history ++ entry ∷ [])) b.node ≡ false)
        × (holder (timeline pool (history ++ entry ∷ [])) b.node ≡ entry.0)
        × (kind (timeline pool (history ++ entry ∷ [])) b.node ≡ Kind.Token) }
{}

/// An end that is given or spent was not spent, in no parcel and its caller's, and one that is
/// collected was in a parcel, and not spent.
pub fn moved_and_spent_ends_are_held()
    ensures given { (pool : ℕ) (limits : Bound) (history : List Entry) (entry : Entry) →
        IsLegal pool limits (history ++ entry ∷ []) → (node : NodeKey) →
        sends node (entry_mark entry) ≡ true →
        (spent (timeline pool history) node ≡ false)
        × (in_transit (timeline pool history) node ≡ false)
        × (holder (timeline pool history) node ≡ entry.0) }
    ensures spent { (pool : ℕ) (limits : Bound) (history : List Entry) (entry : Entry) →
        IsLegal pool limits (history ++ entry ∷ []) → (node : NodeKey) →
        spends node (entry_mark entry) ≡ true →
        (spent (timeline pool history) node ≡ false)
        × (in_transit (timeline pool history) node ≡ false)
        × (holder (timeline pool history) node ≡ entry.0) }
    ensures collected { (pool : ℕ) (limits : Bound) (history : List Entry) (entry : Entry) →
        IsLegal pool limits (history ++ entry ∷ []) → (node : NodeKey) →
        delivers node (entry_mark entry) ≡ true →
        (spent (timeline pool history) node ≡ false)
        × (in_transit (timeline pool history) node ≡ true) }
{}
