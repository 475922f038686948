//! What each call names and makes, said once.
ghost use Rattle.std.specs.Prelude.{◌≡◌};
ghost use Rattle.sm_names.specs.Timelines.{key_of as key_named};
ghost use Rattle.sm_names.specs.CallRows.{is_acquired as is_acquired_in};
ghost use Rattle.core_state.specs.Traits.{Describes, made_on_end, made_on_handle};
ghost use Rattle.core_state.specs.Traits.{made_on_nothing, traits_of as traits_in};

use sm_names::{BufferName, Call, ClientId, Kind, NodeKey, Product, Strength};

/// What a call is made on.
#[derive(Clone, Copy)]
pub enum Named {
    Nothing,
    End(NodeKey),
    Handle(BufferName, Strength),
}

/// What a call names and makes.
#[derive(Clone, Copy)]
pub struct Traits {
    pub on: Named,
    /// The other client that it names.
    pub to: Option<ClientId>,
    /// The only kind of end on which it is made, if there is one.
    pub kind: Option<Kind>,
    pub makes: Product,
}

/// Whether an end or a tracker is made for the caller.
#[inline(always)]
pub fn is_acquired(makes: Product) -> bool
    ensures { result ≡ is_acquired_in makes }
{
    match makes {
        Product::Collection | Product::Node | Product::Tracker => true,
        Product::Nothing | Product::Client | Product::Parcel | Product::Handles => false,
    }
}

// A call on no node and no buffer.
#[inline(always)]
fn of_nothing(makes: Product) -> Traits
    ensures { result ≡ made_on_nothing makes }
{
    Traits {
        on: Named::Nothing,
        to: None,
        kind: None,
        makes,
    }
}

// A call on a node, and maybe on one kind of end alone.
#[inline(always)]
fn of_end(key: NodeKey, kind: Option<Kind>, makes: Product) -> Traits
    ensures { result ≡ made_on_end key kind makes }
{
    Traits {
        on: Named::End(key),
        to: None,
        kind,
        makes,
    }
}

// A call on a handle.
#[inline(always)]
fn of_handle(buffer: BufferName, strength: Strength, makes: Product) -> Traits
    ensures { result ≡ made_on_handle buffer strength makes }
{
    Traits {
        on: Named::Handle(buffer, strength),
        to: None,
        kind: None,
        makes,
    }
}

/// What the call names and makes. Each call is listed here: there is no catch-all.
#[inline(always)]
pub fn traits_of(call: &Call) -> Traits
    ensures value { result ≡ traits_in call.now }
    ensures law { Describes call.now result }
{
    let (token, collection) = (Some(Kind::Token), Some(Kind::Collection));
    match *call {
        Call::Join => of_nothing(Product::Client),
        Call::Shut => of_nothing(Product::Nothing),
        Call::Collect => of_nothing(Product::Parcel),
        Call::OpenRoot => of_nothing(Product::Collection),
        Call::Sync(key)
        | Call::SetWeak(key)
        | Call::SetWeakOk(key, _)
        | Call::Release(key)
        | Call::Close(key) => of_end(key, None, Product::Nothing),
        Call::Give(key, to) => Traits {
            to: Some(to),
            ..of_end(key, None, Product::Nothing)
        },
        Call::Bind(key) | Call::SetDispensable(key) => of_end(key, token, Product::Nothing),
        Call::SetConstraints(key, _) | Call::Check(key) => of_end(
            key,
            collection,
            Product::Nothing,
        ),
        Call::Duplicate(key) => of_end(key, token, Product::Node),
        Call::AttachToken(key) => of_end(key, collection, Product::Node),
        Call::Take(key) => of_end(key, collection, Product::Handles),
        Call::TrackNode(key) => of_end(key, None, Product::Tracker),
        Call::TrackLifetime(key, _) => of_end(key, collection, Product::Tracker),
        Call::DupHandle(buffer, strength) => of_handle(buffer, strength, Product::Handles),
        Call::DropHandle(buffer, strength) => of_handle(buffer, strength, Product::Nothing),
        Call::GiveHandle(buffer, strength, to) => Traits {
            to: Some(to),
            ..of_handle(buffer, strength, Product::Nothing)
        },
        Call::TrackWeak(buffer) => of_handle(buffer, Strength::Weak, Product::Tracker),
    }
}

/// The key of the node that the call names, if it names one.
#[inline(always)]
pub fn key_of(call: &Call) -> Option<NodeKey>
    ensures { result ≡ key_named call.now }
{
    match *call {
        Call::Duplicate(key)
        | Call::AttachToken(key)
        | Call::Sync(key)
        | Call::Give(key, _)
        | Call::Bind(key)
        | Call::SetDispensable(key)
        | Call::SetWeak(key)
        | Call::SetWeakOk(key, _)
        | Call::SetConstraints(key, _)
        | Call::Check(key)
        | Call::Take(key)
        | Call::Release(key)
        | Call::Close(key)
        | Call::TrackNode(key)
        | Call::TrackLifetime(key, _) => Some(key),
        Call::Join
        | Call::Shut
        | Call::OpenRoot
        | Call::Collect
        | Call::DupHandle(_, _)
        | Call::DropHandle(_, _)
        | Call::GiveHandle(_, _, _)
        | Call::TrackWeak(_) => None,
    }
}
