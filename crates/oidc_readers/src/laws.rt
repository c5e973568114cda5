//! What holds of members that are written and hold no float, and of the strict reading. Each function here says a law
//! in its contract, and does nothing.

ghost use Rattle.std.specs.Prelude.{◌≡◌, ℕ, List, Some, Err, map};
ghost use Rattle.std.specs.List.{All};
ghost use Rattle.serde_json.specs.Data.{Data, string};
ghost use Rattle.serde_json.specs.Read.{read};
ghost use Rattle.serde_json.specs.Written.{compact_text};
ghost use Rattle.oidc_members.specs.Objects.{members_of};
ghost use Rattle.oidc_members.specs.Seen.{OutSeen, SeenMember};
ghost use Rattle.oidc_members.specs.Write.{object_text};
ghost use Rattle.oidc_members.specs.declared.refusal.ParseKind.TheVariants.{WrongType};
ghost use Rattle.oidc_readers.specs.Kinds.{flag_kind, moment_kind, of_member};
ghost use Rattle.oidc_readers.specs.WrittenBack.{MayBeWritten, MayStand, HasTexts, as_read};

use oidc_members::Reading;

/// An object that was written is split into the members that were written, each with its name, its
/// value and the value's compact text. It speaks of members that may be written: names and texts are
/// UTF-8, no value holds a float, whole numbers are from -2^63 up to 2^64 - 1, members of objects
/// inside stand in the byte order of their names, no name twice, and values are nested at most 127
/// deep.
pub fn written_objects_split_back()
    ensures { (members : List OutSeen) → All MayBeWritten members
        → members_of (object_text members) ≡ Some (map as_read members) }
{}

/// The compact text of a value is read as that value, where its names and texts are UTF-8, it holds
/// no float, its numbers and inner objects are as above, and it is nested at most 127 deep.
pub fn written_values_read_back()
    ensures { (value : Data) → MayStand value → HasTexts value
        → read (compact_text value) ≡ Some value }
{}

/// Under the strict reading a text is no boolean and no moment, whatever it says.
pub fn strict_refuses_texts()
    ensures booleans { (m : SeenMember) (text : List ℕ) → m.value ≡ string text
        → flag_kind Reading.STRICT m ≡ Err (of_member WrongType m) }
    ensures moments { (m : SeenMember) (text : List ℕ) → m.value ≡ string text
        → moment_kind Reading.STRICT m ≡ Err (of_member WrongType m) }
{}
