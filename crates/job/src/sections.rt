// Sections, each behind its two-byte count, the high byte first.
ghost use Rattle.std.specs.Prelude.{◌≡◌, false, MatchOption};
ghost use Rattle.job.specs.Sections.{whole_at, Split};

// The section at the front and what stands behind it; nothing where no whole section stands there.
pub fn split(s: &[u8]) -> Option<(&[u8], &[u8])>
    ensures { MatchOption result (whole_at s.now ≡ false) (λ parts. Split s.now parts.0.now parts.1.now) }
{
    let (count, rest) = s.split_first_chunk::<2>()?;
    rest.split_at_checked(usize::from(u16::from_be_bytes(*count)))
}
