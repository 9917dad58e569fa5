// The guards of the plain road: what comes in and the product have to be such that no step can leave its type.
// Real air lies well within; what lies outside takes the checked road.
ghost use Rattle.std.specs.Prelude.{◌≡◌};
ghost use Rattle.formula_humidity.specs.Plain.{are_small, is_plain, is_small};

use calibration::HumidityWords;
use formula::is_usual;

// Whether the humidity's words are as small as real chips have them.
// Then the two factors of its product stay within 32 bits.
fn are_small(words: HumidityWords) -> bool
    ensures { result ≡ are_small words }
{
    ((-512 <= words.h2) & (words.h2 <= 512))
        & ((-512 <= words.h4) & (words.h4 <= 512))
        & (((-512 <= words.h5) & (words.h5 <= 512)) & ((-64 <= words.h6) & (words.h6 <= 64)))
}

// Whether the fine temperature is a usual one, the words are small, and the count has its sixteen bits.
// Then the steps up to the product stay within 32 bits.
pub(crate) fn is_plain(words: HumidityWords, fine: i32, count: u32) -> bool
    ensures { result ≡ is_plain words fine count }
{
    is_usual(fine) & are_small(words) & (count <= 65535)
}

// Whether the humidity's product is at most a thousand million without its sign.
// Then its correction stays within 32 bits.
pub(crate) fn is_small(product: i64) -> bool
    ensures { result ≡ is_small product }
{
    (-1000000000 <= product) & (product <= 1000000000)
}
