//! That it makes no difference how the bytes of a stream are cut.
ghost use Rattle.std.specs.Prelude.{◌≡◌, ◌≢◌, List, [], ℕ, ◌++◌, Option, Result, Err};
ghost use Rattle.frame_wire.specs.declared.feed.FrameFault.{FrameFault};
ghost use Rattle.frame_wire.specs.declared.feed.FrameFault.TheVariants.{NoMemory};
ghost use Rattle.frame_wire.specs.Stream.{Pending, nothing_pending, HasNoFrame, IsNext};
ghost use Rattle.frame_wire.specs.Steps.{Step, Leads, AreFrames, IsWholeFront, arrived, given, stream};

use canon_bytes::Take;

/// What `next` answers is decided by what the feed holds, want of memory apart. Whatever was pushed
/// in whatever pieces, and whatever was given up at the end, the frames that were given, one after
/// the other, and the bytes that wait are the bytes that arrived. And bytes have one list of frames
/// before a rest at whose front no frame stands, a bad one or none that is whole: so two feeds that
/// got the same bytes, and were asked until they gave no frame more, gave the same frames.
pub fn any_cut<F: Take>()
    ensures one_answer { (before x y : Pending) (a b : Result (Option F) FrameFault)
        → IsNext F.spelling F.fits before a x → IsNext F.spelling F.fits before b y
        → a ≢ Err NoMemory → b ≢ Err NoMemory → (a ≡ b) × (x ≡ y) }
    ensures front { (steps : List (Step F)) (after : Pending)
        → Leads F.spelling F.fits nothing_pending steps after
        → arrived [] steps ≡ stream F.spelling F.fits (given steps) ++ after.bytes }
    ensures frames { (steps : List (Step F)) (after : Pending)
        → Leads F.spelling F.fits nothing_pending steps after
        → AreFrames F.spelling F.fits (given steps) }
    ensures one_list { (fs gs : List F) (x y : List ℕ) → AreFrames F.spelling F.fits fs
        → AreFrames F.spelling F.fits gs
        → stream F.spelling F.fits fs ++ x ≡ stream F.spelling F.fits gs ++ y
        → HasNoFrame F.spelling F.fits x → HasNoFrame F.spelling F.fits y → (fs ≡ gs) × (x ≡ y) }
{}

/// Of a stream of frames the first bytes, however many, are the frames that lie whole in them and
/// then a part that is no whole frame: what arrives of a stream that is cut.
pub fn cut_leaves_whole_frames<F: Take>()
    ensures { (frames : List F) (bytes : ℕ) → AreFrames F.spelling F.fits frames
        → IsWholeFront F.spelling F.fits frames bytes }
{}
