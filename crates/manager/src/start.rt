ghost use Rattle.std.specs.Prelude.{◌≡◌, ℕ, ◌+◌, ◌*◌, ◌^◌, ◌<◌, ◌≤◌, replicate, length, [], false, Some, None, MatchResult};
ghost use Rattle.manager.specs.Arguments.{Decides, wrong_start};
ghost use Rattle.manager.specs.Refusals.{number_of};
ghost use Rattle.blocks.specs.Bit.{bit};

use crate::presence::Presence;
use crate::refusal::Refusal;
use crate::state::Manager;
use crate::words::WordsAPage;
use blocks::refused::Refused;
use frames::source::FrameSource;
use mapping::client::clear_object;
use mapping::hardware::MappingHardware;
use reservations::table::Table;

// A source and hardware that a manager may be started over, with the words a page.
#[derive(Drop)]
pub struct AcceptedStart<S: FrameSource + Drop, H: MappingHardware + Drop> {
    source: S,
    hardware: H,
    words_a_page: WordsAPage,
}

// Why a manager may not be started with these words a page over so many frames and this frame memory, if so.
fn check_start(words_a_page: WordsAPage, frames: u16, memory: &[u32]) -> Result<(), Refusal>
    ensures { Decides (wrong_start words_a_page.0 frames (length memory.now)) result (λ _. Unit {0}) }
{
    if !words_a_page.is_allowed() {
        return Err(Refusal::BadWords);
    }
    if memory.len() != words_a_page.of_frames(frames) {
        return Err(Refusal::BadMemory);
    }
    Ok(())
}

impl<S: FrameSource + Drop, H: MappingHardware + Drop> Manager<S, H> {
    // Whether a manager may be started with these words a page and this frame memory.
    pub fn check(
        source: S,
        hardware: H,
        words_a_page: u16,
        memory: &[u32],
    ) -> Result<AcceptedStart<S, H>, Refused<(S, H), Refusal>>
        ensures reply { MatchResult result (λ _. wrong_start words_a_page (S.FrameSource.means source).total (length memory.now) ≡ None) (λ b. wrong_start words_a_page (S.FrameSource.means source).total (length memory.now) ≡ Some (number_of b.refusal)) }
        ensures handed { MatchResult result (λ a. (a.source ≡ source) × (a.hardware ≡ hardware) × (a.words_a_page.0 ≡ words_a_page)) (λ b. (b.given.0 ≡ source) × (b.given.1 ≡ hardware)) }
    {
        let words_a_page = WordsAPage(words_a_page);
        // A `match`: a closure for the refusal would take what the other arm needs.
        match check_start(words_a_page, source.frames(), memory) {
            Ok(()) => Ok(AcceptedStart {
                source,
                hardware,
                words_a_page,
            }),
            Err(refusal) => Err(Refused {
                given: (source, hardware),
                refusal,
            }),
        }
    }

    // A manager with all objects closed and no leaf.
    pub fn start(accepted: AcceptedStart<S, H>) -> Manager<S, H>
        ensures cleared { (o : ℕ) (p : ℕ) → H.MappingHardware.at result.hardware o p ≡ None }
        ensures absent { (j : ℕ) → bit result.present.words j ≡ false }
        ensures source { result.source ≡ accepted.source }
        ensures closed { result.sizes ≡ replicate 4 None }
        ensures unreserved { result.reserved ≡ [] }
        ensures words { result.words_a_page ≡ accepted.words_a_page }
    {
        let AcceptedStart {
            source,
            mut hardware,
            words_a_page,
        } = accepted;
        for object in 0..4u8 {
            clear_object(&mut hardware, object);
        }
        Manager {
            source,
            hardware,
            reserved: Table::new(),
            present: Presence::new(),
            sizes: [None; 4],
            words_a_page,
        }
    }
}
