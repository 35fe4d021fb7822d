// The descriptors of a 93h, 8 bytes each from byte 12 on: "3 source (00h allowed), 4 to 7 threshold".
ghost use Rattle.std.specs.Prelude.{◌≡◌};
ghost use Rattle.model.specs.Request.{descriptor_source, descriptor_threshold};
ghost use Rattle.model.specs.Request.{allowed, first_unsupported};

use counters::sources::supported;
use gate::bytes::byte_at;

// The frame and the number of its descriptors stay two parameters, here and in configure: of a struct that holds the frame
// a clause has to say `descriptors.entry.frame.now`, which is no plainer.

// "3 source"
pub(crate) fn descriptor_source(frame: &[u8], i: u8) -> u8
    ensures { result ≡ descriptor_source frame.now i }
{
    byte_at(frame, 12 + 8 * usize::from(i) + 3)
}

// "4 to 7 threshold", big-endian
pub(crate) fn descriptor_threshold(frame: &[u8], i: u8) -> u32
    ensures { result ≡ descriptor_threshold frame.now i }
{
    let at = 12 + 8 * usize::from(i) + 4;
    u32::from_be_bytes(std::array::from_fn(|k| byte_at(frame, at + k)))
}

// What a descriptor may name: a supported source, or 00h ("00h allowed").
#[tactic(auto, unfolding(model::specs::Request::allowed))]
pub(crate) fn allowed(source: u8) -> bool
    ensures { result ≡ allowed source }
{
    source == 0x00 || supported(u32::from(source))
}

// "The first failing descriptor settles the answer, and the rest are not judged": its place among the d descriptors, if one
// fails. (A loop that ends by `break`: a form that document 01 names, docs/DECISIONS.md.)
#[tactic(auto, using(crate::proofs::Left::none_left, crate::proofs::Left::next_judged))]
pub fn first_unsupported(frame: &[u8], d: u8) -> Option<u8>
    ensures { result ≡ first_unsupported frame.now d 0 }
{
    let mut i = 0;
    loop {
        if i == d {
            break None;
        }
        if !allowed(descriptor_source(frame, i)) {
            break Some(i);
        }
        i += 1;
    }
}
