// An event, read from its octets.
ghost use Rattle.std.specs.Prelude.{◌≡◌};
ghost use Rattle.book.specs.Events.{event_of, frame_from};

use book::{Event, Terms};

// The event that the octets are.
#[tactic(auto, unfolding(book::specs::Events::event_of, book::specs::Events::terms_in))]
pub fn event_of(s: &[u8]) -> Event
    ensures { result ≡ event_of s.now }
{
    match *s {
        [0x01, class, priority, rer @ 0..=2, ..] => Event::Transfer(
            false,
            Terms {
                class,
                priority,
                rer,
            },
        ),
        [0x02, class, priority, rer @ 0..=2, ..] => Event::Transfer(
            true,
            Terms {
                class,
                priority,
                rer,
            },
        ),
        [0x03] => Event::End,
        [0x04] => Event::Tick,
        [0x10, class, priority, rer @ 1..=2, ..] => Event::StartAsked(Terms {
            class,
            priority,
            rer,
        }),
        [0x11, result @ 0..=1, ..] => Event::StartAnswered(result == 0),
        [0x12, ..] => Event::Data,
        [0x13] => Event::EndAsked,
        [0x14, result @ 0..=1] => Event::EndAnswered(result == 0),
        [0x15] => Event::Aborted,
        [0x16] => Event::Dropped,
        _ => Event::Malformed,
    }
}

// Where the frame of an event begins.
pub fn frame_from(e: Event) -> usize
    ensures { result ≡ frame_from e }
{
    match e {
        Event::Transfer(..) | Event::StartAsked(_) => 4,
        Event::StartAnswered(_) | Event::EndAnswered(_) => 2,
        _ => 1,
    }
}
