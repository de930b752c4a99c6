//! Laws of the definitions, as contracts of functions that do nothing.
ghost use Rattle.std.specs.Prelude.{◌≡◌, ◌+◌, ◌≤◌, ◌++◌, ℕ, ℤ, false, List, [], ◌∷◌, length, FitsSigned};
ghost use Rattle.std.specs.Int.{w32};
ghost use Rattle.laz_range.specs.Cut.{AreCuts};
ghost use Rattle.laz_range.specs.Span.{Begins, Fits, IsBytes, bytes_of, span};
ghost use Rattle.laz_models.specs.Counting.{Counting};
ghost use Rattle.laz_integer.specs.Corrector.{HasBits};
ghost use Rattle.laz_integer.specs.Events.{Event, Name, cuts_after, cuts_of, same_text};
ghost use Rattle.laz_integer.specs.Fields.{BankStands};
ghost use Rattle.laz_integer.specs.Integer.{IntEvents, IntSpell, IntStands, IntState, int_width};
ghost use Rattle.laz_integer.specs.Ranged.{AreOneKind, AreRanged, HasIntSizes, IsRanged};
ghost use Rattle.laz_integer.specs.Uses.{Silent};

use crate::limits::{MAX_BITS, SHORT_BITS};
use laz_range::{bytes_fit, fronts_begin, one_begins};

/// Lawful events, coded after lawful events, cut out parts that are not empty.
pub fn events_cut()
    ensures { (sizes : Name → ℕ) (earlier events : List Event) → AreRanged sizes earlier → AreRanged sizes events
        → AreCuts (cuts_after earlier events) }
{}

/// The bytes of a list of lawful events fit the list.
pub fn event_bytes_fit()
    ensures { (sizes : Name → ℕ) (events : List Event) → AreRanged sizes events
        → Fits (span (cuts_of events)) (bytes_of (span (cuts_of events))) }
{
    bytes_fit();
}

/// If a list of lawful events and further events after it begin some bytes, the list alone begins them.
pub fn event_fronts_begin()
    ensures { (sizes : Name → ℕ) (front rest : List Event) (bytes : List ℕ) → AreRanged sizes (front ++ rest)
        → IsBytes bytes → Begins (span (cuts_of (front ++ rest))) bytes → Begins (span (cuts_of front)) bytes }
{
    fronts_begin();
}

/// Two lawful events of one kind, each after the same lawful events, begin the same bytes only if they are equal. They
/// are two symbols or two bits under one name, or two raw values of one width.
pub fn one_event_begins()
    ensures { (sizes : Name → ℕ) (front : List Event) (d e : Event) (bytes : List ℕ) → AreRanged sizes front
        → IsRanged sizes d → IsRanged sizes e → AreOneKind d e → IsBytes bytes
        → Begins (span (cuts_of (front ++ d ∷ []))) bytes → Begins (span (cuts_of (front ++ e ∷ []))) bytes → d ≡ e }
{
    one_begins();
}

/// The events that a writer makes of an integer spell the integer, for every integer and prediction. Below 32 bits the
/// integer is from 0 to 2^bits - 1.
pub fn integers_are_spelled()
    ensures { (kind : List ℕ) (bits ctx : ℕ) (pred real : ℤ) → 1 ≤ bits → bits ≤ MAX_BITS → FitsSigned w32 pred
        → FitsSigned w32 real → HasBits bits real
        → IntSpell kind bits ctx pred (IntEvents kind bits ctx pred real) real (int_width bits pred real) }
{}

/// Events that spell an integer are lawful. There are at most 4 of them, and at most 3 up to 27 bits. None is under a
/// name of another use.
pub fn integers_are_lawful()
    ensures ranged { (sizes : Name
        → ℕ) (kind : List ℕ) (bits ctx : ℕ) (pred value : ℤ) (events : List Event) (k : ℕ)
        → HasIntSizes sizes kind bits → 1 ≤ bits → bits ≤ MAX_BITS → IntSpell kind bits ctx pred events value k
        → AreRanged sizes events }
    ensures few { (kind : List ℕ) (bits ctx : ℕ) (pred value : ℤ) (events : List Event) (k : ℕ) → bits ≤ MAX_BITS
        → IntSpell kind bits ctx pred events value k → length events ≤ 4 }
    ensures fewer { (kind : List ℕ) (bits ctx : ℕ) (pred value : ℤ) (events : List Event) (k : ℕ)
        → bits ≤ SHORT_BITS → IntSpell kind bits ctx pred events value k → length events ≤ 3 }
    ensures silent { (other kind : List ℕ) (bits ctx : ℕ) (pred value : ℤ) (events : List Event) (k : ℕ)
        → same_text other kind ≡ false → bits ≤ MAX_BITS → IntSpell kind bits ctx pred events value k
        → Silent other events }
{}

/// The models of an integer, and those of a bank, stand for the same events after events of other uses.
pub fn other_uses_leave()
    ensures integers { (kind : List ℕ) (earlier others : List Event) (st : IntState) → Silent kind others
        → IntStands kind earlier st → IntStands kind (earlier ++ others) st }
    ensures banks { (kind : List ℕ) (earlier others : List Event) (bank : List Counting) → Silent kind others
        → BankStands kind earlier bank → BankStands kind (earlier ++ others) bank }
{}
