//! What worked runs show of ends and handles that travel from client to client.
ghost use Rattle.std.specs.Prelude.{◌≡◌, [], take, ◌∷◌};
ghost use Rattle.sm_names.specs.declared.keys.Strength.{Strength};
ghost use Rattle.sm_names.specs.declared.keys.Kind.{Kind};
ghost use Rattle.sm_names.specs.declared.messages.Reply.{Reply};
ghost use Rattle.sm_names.specs.declared.outcomes.Cause.{Cause};
ghost use Rattle.sm_names.specs.declared.outcomes.Refusal.{Refusal};
ghost use Rattle.sm_names.specs.Handles.{moving, open_of, open_total};
ghost use Rattle.sm_names.specs.Legality.{IsLegal};
ghost use Rattle.sm_names.specs.Marks.{events};
ghost use Rattle.worked_runs.specs.Words.{answered_instead, at, buffer, full, key};
ghost use Rattle.sm_names.specs.Timelines.{timeline};
ghost use Rattle.sm_names.specs.Views.{held_by_page};
ghost use Rattle.worked_runs.specs.Parcels.{end_given_to_itself, end_given_to_another, parcel_of_a_lost_node, lost_in_transit, two_parcels, handle_travels, handle_to_a_shut_client, handles_counted, handle_of_a_shut_client};

/// An end that was given is nobody's to use until it is collected.
pub fn an_end_waits_in_a_parcel()
    ensures end_given_to_itself { IsLegal 16 full end_given_to_itself }
    ensures not_done_1 { IsLegal 16 full
        (answered_instead Reply.Done (take 5 end_given_to_itself)) → ⊥ }
    ensures not_refused_1 { IsLegal 16 full
        (answered_instead (Reply.Refused Refusal.InTransit) end_given_to_itself) → ⊥ }
    ensures end_given_to_another { IsLegal 16 full end_given_to_another }
    ensures not_done_2 { IsLegal 16 full
        (answered_instead Reply.Done (take 6 end_given_to_another)) → ⊥ }
    ensures not_refused_2 { IsLegal 16 full
        (answered_instead (Reply.Refused Refusal.NoSuchEnd) (take 6 end_given_to_another)) → ⊥ }
    ensures not_done_3 { IsLegal 16 full
        (answered_instead Reply.Done (take 7 end_given_to_another)) → ⊥ }
    ensures not_shut { IsLegal 16 full
        (answered_instead (Reply.Shut 0) (take 9 end_given_to_another)) → ⊥ }
    ensures not_empty { IsLegal 16 full
        (answered_instead Reply.Empty (take 10 end_given_to_another)) → ⊥ }
{}

/// An end whose node is gone cannot be given, but one that lies in a parcel is counted and
/// collected, and in transit it is nobody's.
pub fn a_parcel_of_a_gone_node_is_collected()
    ensures parcel_of_a_lost_node { IsLegal 16 full parcel_of_a_lost_node }
    ensures not_done { IsLegal 16 full
        (answered_instead Reply.Done (take 9 parcel_of_a_lost_node)) → ⊥ }
    ensures not_shut_1 { IsLegal 16 full
        (answered_instead (Reply.Shut 1) parcel_of_a_lost_node) → ⊥ }
    ensures lost_in_transit { IsLegal 16 full lost_in_transit }
    ensures not_closed { IsLegal 16 full
        (answered_instead (Reply.PeerClosed Cause.Lost (key 0)) (take 8 lost_in_transit)) → ⊥ }
    ensures not_refused { IsLegal 16 full
        (answered_instead (Reply.Refused Refusal.NoSuchEnd) (take 9 lost_in_transit)) → ⊥ }
    ensures not_shut_2 { IsLegal 16 full (answered_instead (Reply.Shut 0) lost_in_transit) → ⊥ }
{}

/// What was given first is collected first.
pub fn parcels_come_in_order()
    ensures legal { IsLegal 16 full two_parcels }
    ensures not_token { IsLegal 16 full
        (answered_instead (Reply.Collected (key 2) Kind.Token 3) (take 8 two_parcels)) → ⊥ }
{}

/// A handle that was given is open and nobody's until it is collected, and keeps its buffer
/// meanwhile.
pub fn a_handle_travels()
    ensures handle_travels { IsLegal 16 full handle_travels }
    ensures held_1 { held_by_page 16 (timeline 16 (take 9 handle_travels))
        ≡ at (buffer 3 0) 0 1 ∷ [] }
    ensures held_2 { held_by_page 16 (timeline 16 (take 10 handle_travels))
        ≡ at (buffer 3 0) 0 1 ∷ [] }
    ensures held_3 { held_by_page 16 (timeline 16 handle_travels) ≡ [] }
    ensures not_done_1 { IsLegal 16 full (answered_instead Reply.Done (take 8 handle_travels)) → ⊥ }
    ensures not_empty { IsLegal 16 full
        (answered_instead Reply.Empty (take 10 handle_travels)) → ⊥ }
    ensures handle_to_a_shut_client { IsLegal 16 full handle_to_a_shut_client }
    ensures not_done_2 { IsLegal 16 full
        (answered_instead Reply.Done (take 8 handle_to_a_shut_client)) → ⊥ }
    ensures not_refused { IsLegal 16 full
        (answered_instead (Reply.Refused Refusal.NoSuchHandle) handle_to_a_shut_client) → ⊥ }
    ensures handles_counted { IsLegal 16 full handles_counted }
    ensures events_1 { events (timeline 16 (take 7 handles_counted)) ≡ 7 }
    ensures open_1 { open_total (timeline 16 (take 7 handles_counted)) (buffer 3 0) Strength.Strong
        ≡ 1 }
    ensures moving_1 { moving (timeline 16 (take 7 handles_counted)) (buffer 3 0) Strength.Strong
        ≡ 1 }
    ensures of_client_1 { open_of (timeline 16 (take 7 handles_counted)) 1
        (buffer 3 0) Strength.Strong
        ≡ 0 }
    ensures of_client_2 { open_of (timeline 16 (take 7 handles_counted)) 2
        (buffer 3 0) Strength.Strong
        ≡ 0 }
    ensures held_4 { held_by_page 16 (timeline 16 (take 7 handles_counted))
        ≡ at (buffer 3 0) 0 1 ∷ [] }
    ensures moving_2 { moving (timeline 16 (take 9 handles_counted)) (buffer 3 0) Strength.Strong
        ≡ 0 }
    ensures of_client_3 { open_of (timeline 16 (take 9 handles_counted)) 2
        (buffer 3 0) Strength.Strong
        ≡ 1 }
    ensures events_2 { events (timeline 16 handles_counted) ≡ 10 }
    ensures open_2 { open_total (timeline 16 handles_counted) (buffer 3 0) Strength.Strong ≡ 0 }
    ensures moving_3 { moving (timeline 16 handles_counted) (buffer 3 0) Strength.Strong ≡ 0 }
    ensures open_3 { open_total (timeline 16 handles_counted) (buffer 3 0) Strength.Weak ≡ 0 }
    ensures held_5 { held_by_page 16 (timeline 16 handles_counted) ≡ at (buffer 3 0) 0 1 ∷ [] }
    ensures not_shut { IsLegal 16 full
        (answered_instead (Reply.Shut 0) (take 8 handles_counted)) → ⊥ }
{}

/// A shut client still drops, gives and doubles what it has; it acquires nothing more.
pub fn a_shut_client_lets_go()
    ensures legal { IsLegal 16 full handle_of_a_shut_client }
    ensures not_refused_1 { IsLegal 16 full
        (answered_instead (Reply.Refused Refusal.ClientShut) (take 10 handle_of_a_shut_client)) →
        ⊥ }
    ensures not_refused_2 { IsLegal 16 full
        (answered_instead (Reply.Refused Refusal.ClientShut) (take 11 handle_of_a_shut_client)) →
        ⊥ }
    ensures not_refused_3 { IsLegal 16 full
        (answered_instead (Reply.Refused Refusal.ClientShut) (take 12 handle_of_a_shut_client)) →
        ⊥ }
    ensures not_token { IsLegal 16 full
        (answered_instead (Reply.Token (key 99) 3) (take 13 handle_of_a_shut_client)) → ⊥ }
    ensures not_refused_4 { IsLegal 16 full
        (answered_instead (Reply.Refused Refusal.ClientShut) (take 15 handle_of_a_shut_client)) →
        ⊥ }
    ensures not_collection { IsLegal 16 full
        (answered_instead (Reply.Collected (key 0) Kind.Collection 3) handle_of_a_shut_client) → ⊥ }
{}
