//! What the table of calls says of each call. The function does nothing: its contract is a law.
ghost use Rattle.std.specs.Prelude.{◌≡◌, Some};
ghost use Rattle.sm_names.specs.declared.call_parts.CallParts.{CallParts};
ghost use Rattle.sm_names.specs.declared.messages.Call.{Call};
ghost use Rattle.sm_names.specs.CallRows.{RowAgrees, call_of, parts_of};

/// The table says of each call what the definitions of the machine say of it, and the parts of a
/// call make that call and no other.
pub fn calls_have_rows()
    ensures rows { (call : Call) → RowAgrees call }
    ensures parts { (parts : CallParts) (call : Call) → call_of parts ≡ Some call →
        parts_of call ≡ parts }
{}
