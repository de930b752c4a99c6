//! Laws of the definitions, as contracts of functions that do nothing.
ghost use Rattle.std.specs.Prelude.{◌≡◌, ◌+◌, ◌*◌, ◌<◌, ◌≤◌, ◌^◌, ℕ, List, [], ◌∷◌, ◌++◌, length, option_and_then};
ghost use Rattle.std.specs.Prelude.{take};
ghost use Rattle.std.specs.Option.{SomeIff};
ghost use Rattle.laz_range.specs.Cut.{Cut, AreAlike, AreCuts, IsCut, IsDistribution, IsLike, symbol, width_in};
ghost use Rattle.laz_range.specs.Span.{Begins, Fits, IsBytes, Span, bytes_for, bytes_of, span};
ghost use Rattle.laz_range.specs.Reading.{follow_all, initial_reading, reading};

/// The numbers of a span have at most as many digits as its bytes.
pub fn spans_lie()
    ensures { (events : List Cut) → AreCuts events
        → (span events).low + (span events).len ≤ 256 ^ ((span events).shifts + 4) }
{}

/// An event adds as many digits as the length of its part needs bytes.
pub fn shifts_grow()
    ensures { (events : List Cut) (c : Cut) → AreCuts events → IsCut c
        → (span (events ++ c ∷ [])).shifts ≡ (span events).shifts + bytes_for (width_in (span events).len c) }
{}

/// An event adds at most three digits.
pub fn shifts_are_few()
    ensures { (events : List Cut) → (span events).shifts ≤ 3 * length events }
{}

/// The bytes of a list of events fit the list.
pub fn bytes_fit()
    ensures { (events : List Cut) → AreCuts events → Fits (span events) (bytes_of (span events)) }
{}

/// A list begins bytes exactly if some front of the bytes fits it.
pub fn fronts_fit()
    ensures some { (s : Span) (bytes : List ℕ) (n : ℕ) → Fits s (take n bytes) → Begins s bytes }
    ensures front { (s : Span) (bytes : List ℕ) → Begins s bytes → Fits s (take (s.shifts + 4) bytes) }
{}

/// If a list followed by further events begins bytes, the list begins them.
pub fn fronts_begin()
    ensures { (front rest : List Cut) (bytes : List ℕ) → AreCuts (front ++ rest) → IsBytes bytes
        → Begins (span (front ++ rest)) bytes → Begins (span front) bytes }
{}

/// At most one event of a kind begins bytes after a list: of two symbols of one distribution, two bits of one p0, or
/// two raw values of one width, both begin the same bytes only if they are equal.
pub fn one_begins()
    ensures { (front : List Cut) (c d : Cut) (bytes : List ℕ) → IsBytes bytes → IsCut c → IsCut d → AreAlike c d
        → Begins (span (front ++ c ∷ [])) bytes → Begins (span (front ++ d ∷ [])) bytes → c ≡ d }
{}

/// Two symbols of one distribution are events of one kind.
pub fn parts_are_alike()
    ensures { (starts : List ℕ) (s t : ℕ) → IsDistribution starts → s < length starts → t < length starts
        → IsLike (symbol starts s) (symbol starts t) }
{}

/// The events that a decoder can follow are those that begin its bytes.
pub fn events_follow()
    ensures { (events : List Cut) (bytes : List ℕ) → AreCuts events → IsBytes bytes
        → SomeIff (option_and_then (λ r. follow_all r events) (initial_reading bytes))
        (Begins (span events) bytes) (reading (span events) bytes) }
{}
