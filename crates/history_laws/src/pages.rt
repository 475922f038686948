//! Where buffers are placed in the pool, and which of them are held.
ghost use Rattle.std.specs.Prelude.{◌≡◌, ◌≤◌, ◌<◌, ◌+◌, ◌↔◌, ◌++◌, ◌&&◌, ◌==◌, ℕ, List, length, map, Bool, not, Some, None, true, false};
ghost use Rattle.std.specs.List.{list_all, list_any, sum_by};
ghost use Rattle.std.specs.Option.{option_map_or};
ghost use Rattle.sm_names.specs.declared.keys.BufferName.{BufferName};
ghost use Rattle.sm_names.specs.declared.keys.Interval.{Interval};
ghost use Rattle.sm_names.specs.declared.outcomes.Buffers.{Buffers};
ghost use Rattle.sm_names.specs.Apart.{AreApart, AreFirst, IsFull, are_in, at_pages, with_placed};
ghost use Rattle.sm_names.specs.Bounds.{Bound};
ghost use Rattle.sm_names.specs.Handles.{home, buffers_of, buffer_names};
ghost use Rattle.sm_names.specs.Legality.{IsLegal};
ghost use Rattle.sm_names.specs.Marks.{Entry};
ghost use Rattle.sm_names.specs.Pages.{places, meets, pages_of};
ghost use Rattle.sm_names.specs.Sameness.{same_buffer};
ghost use Rattle.sm_names.specs.Timelines.{held, timeline};
ghost use Rattle.sm_names.specs.Views.{free_pages};
ghost use Rattle.sm_names.specs.Words.{times};

/// Buffers are placed in the pool, apart from one another and from all that is held, each at the
/// first start with room. They have no places exactly if some of them are placed so and then there
/// is no room for the next. It does not matter in which order the held pages are listed.
pub fn places_are_apart()
    ensures apart { (pool pages count : ℕ) (held : List Interval) (starts : List ℕ) →
        places pool pages count held ≡ Some starts → AreApart held →
        AreApart (map (at_pages pages) starts ++ held) }
    ensures inside { (pool pages count : ℕ) (held : List Interval) (starts : List ℕ) →
        places pool pages count held ≡ Some starts → are_in pool held ≡ true →
        are_in pool (map (at_pages pages) starts ++ held) ≡ true }
    ensures first { (pool pages count : ℕ) (held : List Interval) (starts : List ℕ) →
        (places pool pages count held ≡ Some starts)
        ↔ ((length starts ≡ count) × AreFirst pool pages held starts) }
    ensures no_room { (pool pages count : ℕ) (held : List Interval) →
        (places pool pages count held ≡ None)
        ↔ ((starts : List ℕ) × (length starts < count) × AreFirst pool pages held starts
        × IsFull pool pages (with_placed pages starts held)) }
    ensures any_order { (pool pages count : ℕ) (held other : List Interval) →
        ((test : Interval → Bool) → list_any test held ≡ list_any test other) →
        places pool pages count held ≡ places pool pages count other }
    ensures page { (a b : Interval) → meets a b ≡ false → (page : ℕ) →
        a.start ≤ page → page < a.start + a.pages → b.start ≤ page → page < b.start + b.pages → ⊥ }
{}

/// In a legal history no two held buffers overlap. A buffer is held exactly if it was allocated and
/// is not home, and then once, with the pages that its collection's buffers take. The free pages
/// and the held ones are together the pool.
pub fn held_buffers_are_apart()
    ensures apart { (pool : ℕ) (limits : Bound) (history : List Entry) →
        IsLegal pool limits history →
        AreApart (map (λ h. h.pages) (held pool (timeline pool history))) }
    ensures inside { (pool : ℕ) (limits : Bound) (history : List Entry) →
        IsLegal pool limits history →
        are_in pool (map (λ h. h.pages) (held pool (timeline pool history))) ≡ true }
    ensures stands { (pool : ℕ) (limits : Bound) (history : List Entry) →
        IsLegal pool limits history →
        (buffer : BufferName) →
        list_any (λ h. same_buffer h.buffer buffer) (held pool (timeline pool history))
        ≡ (list_any (λ name. same_buffer name buffer)
        (buffer_names (timeline pool history) buffer.collection)
        && not (home (timeline pool history) buffer)) }
    ensures once { (pool : ℕ) (limits : Bound) (history : List Entry) →
        IsLegal pool limits history →
        (buffer : BufferName) →
        times (λ h. same_buffer h.buffer buffer) (held pool (timeline pool history)) ≤ 1 }
    ensures sizes { (pool : ℕ) (limits : Bound) (history : List Entry) →
        IsLegal pool limits history →
        list_all (λ h. option_map_or (λ (b : Buffers). h.pages.pages == pages_of b.size)
        (buffers_of (timeline pool history) h.buffer.collection) false)
        (held pool (timeline pool history)) ≡ true }
    ensures free { (pool : ℕ) (limits : Bound) (history : List Entry) →
        IsLegal pool limits history →
        free_pages pool (timeline pool history)
        + sum_by (λ h. h.pages.pages) (held pool (timeline pool history)) ≡ pool }
{}
