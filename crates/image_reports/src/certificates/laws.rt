// What a certificate promises, and what it says of the answers of `pair` and `leak`.

ghost use Rattle.std.specs.Prelude.{◌≡◌, ◌≢◌, ℕ, ◌+◌, ◌≤◌, List, [], ◌∷◌, ◌++◌, length, Option, Result, Ok, Err};
ghost use Rattle.image_reports.specs.Below.{Arg, CertifiedEnd, Covers, entries_of, Entry, Fields, IsImage, IsLeak};
ghost use Rattle.image_reports.specs.Below.{loaded_at, Observation, Paired, Pairing, params_of, program_counter};
ghost use Rattle.image_reports.specs.Below.{RunFault, Stop};
ghost use Rattle.codegen.specs.Bases.{AreBases};
ghost use Rattle.image_reports.specs.certificates.Certified.{Certified};
ghost use Rattle.image_reports.specs.certificates.Given.{Completes};
ghost use Rattle.image_reports.specs.certificates.KnownImage.{known_at};
ghost use Rattle.image_reports.specs.certificates.Promised.{AllShow, AllShiftBy, AllBegin};

use certified_runs::Shifts;

/// What is known of an image that was loaded with what is given covers the state that it is loaded to with any
/// arguments within the parameter types that have the given values.
pub fn known_images_cover()
    ensures { (code frame : ℕ) (image : Fields) (given : List (Option Arg)) (shifts : Shifts) (args : List Arg)
        → IsImage image → AreBases image code frame → Completes (params_of image) given args
        → Covers (known_at code frame image given shifts) (loaded_at code frame image args) }
{}

/// What a certificate promises. Where it says that all is the same, there is one list, with so many entries, that every
/// run of the image with its stated steps shows, on all arguments within the parameter types that have the given
/// values, and each stops so; and where shifts are seen, there is one list of amounts by which each of them shifts
/// registers. Where it says that an entry may differ, all of them agree on the entries before it, of which the last is
/// the program counter of the step that may differ. Runs that a recorder cuts short are no such runs.
pub fn certificates_hold()
    ensures same { (image : Fields) (given : List (Option Arg)) (shifts : Shifts) (stop : Stop) (entries : ℕ)
        → IsImage image → Certified image given shifts (Ok (CertifiedEnd.Same stop entries))
        → (seen : List Observation) × (length (entries_of seen) ≡ entries) × AllShow image given seen stop }
    ensures amounts { (image : Fields) (given : List (Option Arg)) (stop : Stop) (entries : ℕ)
        → IsImage image → Certified image given Shifts.Seen (Ok (CertifiedEnd.Same stop entries))
        → (amounts : List ℕ) × AllShiftBy image given amounts }
    ensures may_differ { (image : Fields) (given : List (Option Arg)) (shifts : Shifts) (entry pc : ℕ)
        → IsImage image
        → Certified image given shifts (Ok (CertifiedEnd.MayDiffer entry pc))
        → (before : List Entry)
        × (length before + 1 ≡ entry)
        × AllBegin image given (before ++ program_counter pc ∷ []) }
{}

/// Two calls of `certify` with one image, the same given values and the same setting of shifts answer the same, where
/// neither runs out of memory.
pub fn certifications_agree()
    ensures { (image : Fields) (given : List (Option Arg)) (shifts : Shifts) (a b : Result CertifiedEnd RunFault)
        → Certified image given shifts a
        → Certified image given shifts b
        → a ≢ Err RunFault.Memory
        → b ≢ Err RunFault.Memory
        → a ≡ b }
{}

/// What `pair` and `leak` answer for two lists of arguments that have the given values. Where all is certified to be
/// the same, `pair` finds them the same, and their listings are one list of bytes and end by one stop. Where an entry
/// may differ, no pair differs before it.
pub fn pairs_and_listings_are_as_certified()
    ensures pairs { (image : Fields) (given : List (Option Arg)) (shifts : Shifts) (stop : Stop) (entries : ℕ)
        (one other : List Arg) (pairing : Pairing)
        → IsImage image
        → Certified image given shifts (Ok (CertifiedEnd.Same stop entries))
        → Completes (params_of image) given one
        → Completes (params_of image) given other
        → Paired image one other (Ok pairing)
        → pairing ≡ Pairing.Same }
    ensures listings { (image : Fields) (given : List (Option Arg)) (shifts : Shifts) (stop : Stop) (entries : ℕ)
        (one other : List Arg) (stop' stop'' : Stop) (bytes bytes' : List ℕ)
        → IsImage image
        → Certified image given shifts (Ok (CertifiedEnd.Same stop entries))
        → Completes (params_of image) given one
        → Completes (params_of image) given other
        → IsLeak image one stop' bytes
        → IsLeak image other stop'' bytes'
        → (bytes ≡ bytes') × (stop' ≡ stop) × (stop'' ≡ stop) }
    ensures differ { (image : Fields) (given : List (Option Arg)) (shifts : Shifts) (entry pc : ℕ)
        (one other : List Arg) (place : ℕ)
        → IsImage image
        → Certified image given shifts (Ok (CertifiedEnd.MayDiffer entry pc))
        → Completes (params_of image) given one
        → Completes (params_of image) given other
        → Paired image one other (Ok (Pairing.Differ place))
        → entry ≤ place }
{}
