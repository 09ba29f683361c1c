// A data section in its frame: the name before it, its CRC behind it (01, "The board and its wire"). Both ends of the link use it.
#![tactic(auto)]

ghost use Rattle.std.specs.Prelude.{◌≡◌, true, false, MatchOption};
ghost use Rattle.std.proofs.lemmas.List.Edits.{sets};
ghost use Rattle.frame.specs.Frame.{framed, data_in, intact};

use wire::Number;

// Name, data section and CRC, one behind the other from the front on; what does not fit is not stored.
#[tactic(auto, using(crate::proofs::Frames::frame_stored))]
pub fn put(out: &mut [u8], name: u32, section: &[u8])
    ensures { out.new ≡ sets out.old 0 (framed name section.now) }
{
    wire::put(out, 0, 4, name.number());
    wire::copy(out, 4, section);
    wire::put(out, 4 + section.len(), 2, crc::crc(section).number());
}

// Whether the CRC in a frame's last two bytes is that of its data section.
#[tactic(auto, unfolding(crate::specs::Frame::intact))]
pub fn is_intact(frame: &[u8]) -> bool
    ensures { result ≡ intact frame.now }
{
    if frame.len() < 6 {
        return false;
    }
    let end = frame.len() - 2;
    crc::crc(&frame[4..end]) == u16::read(frame, end)
}

// The data section of a frame that is intact.
#[tactic(auto, using(crate::proofs::Frames::intact_long))]
pub fn section(frame: &[u8]) -> Option<&[u8]>
    ensures { MatchOption result (intact frame.now ≡ false) (λ part. (intact frame.now ≡ true) × (part.now ≡ data_in frame.now)) }
{
    if !is_intact(frame) {
        return None;
    }
    let end = frame.len() - 2;
    Some(&frame[4..end])
}
