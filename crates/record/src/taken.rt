// What the bytes given are taken for.
ghost use Rattle.std.specs.Prelude.{◌≡◌};
ghost use Rattle.record.specs.Taken.{taken_for};

// The version 1 record of panel G with moment 3,000: length, version, bond, rate, gap, strength, moment, boards, failure time,
// lamellae, and each lamella's direction and thickness.
const G: [u8; 27] = [
    0, 27, 1, 0, 65, 0, 0, 240, 0, 0, 11, 184, 0, 0, 0, 0, 0, 3, 1, 1, 44, 0, 1, 144, 1, 1, 44,
];

// No byte is taken for the record of G, any other bytes for themselves.
#[tactic(auto, using(crate::proofs::TakenBytes::taken_none, crate::proofs::TakenBytes::taken_some), unfolding(crate::specs::Taken::g_bytes))]
pub(crate) fn taken_for(s: &[u8]) -> &[u8]
    ensures { result.now ≡ taken_for s.now }
{
    if s.is_empty() { &G } else { s }
}
