// How many bytes a list of steps adds up to.
ghost use Rattle.std.specs.Prelude.{◌≡◌, min};
ghost use Rattle.visit.specs.Words.{from_words};
ghost use Rattle.visit_write.specs.Walk.{size_of};

// The bytes of all steps together. It stops at 65,536, which no record has.
pub(crate) fn total(steps: &[u32]) -> usize
    ensures { result ≡ min (size_of (from_words steps.now)) 65536 }
{
    let mut bytes = 0;
    for k in 0..steps.len() / visit::WORDS {
        bytes += visit_bytes::size(visit_step::step_at(steps, k));
        if visit::MOST_BYTES < bytes {
            return visit::MOST_BYTES + 1;
        }
    }
    bytes
}
