// A BMP280's reading, by the BME280's steps: what it lacks is zeros there, and humidity is skipped.
ghost use Rattle.std.specs.Prelude.{◌≡◌, true, [], length, Ok};
ghost use Rattle.paper.specs.Registers as reg;
ghost use Rattle.kinds.specs.Chips as chips;
ghost use Rattle.kinds.specs.declared.Kind.TheVariants.{Bmp280};
ghost use Rattle.data.specs.Counts.{counts_of};
ghost use Rattle.calibration.specs.Calibration.{words_of};
ghost use Rattle.compensation.specs.Compensation.{reading_answer};
ghost use Rattle.compensation_kinds.specs.Kinds as by;

use compensation::Answer;
use kinds::Kind;
use paper::Refusal;

// In the place of block two, which a BMP280 has not.
const NO_BLOCK: [u8; paper::BLOCK_TWO] = [0; paper::BLOCK_TWO];

// The code that skips a channel.
const SKIPPED: u8 = 0;

// Whether the lengths of both blocks and of the data are a part's own.
fn are_lengths(kind: Kind, one: usize, two: usize, bytes: usize) -> bool
    ensures { result ≡ by.are_lengths kind one two bytes }
{
    let chip = kinds::facts(kind);
    (one == chip.one) & ((two == chip.two) & (bytes == chip.bytes))
}

// The reading that block one and six bytes make, at two codes that are right.
// Block two and the last two bytes are zeros, and humidity is skipped: so it is 10.
fn read(one: &[u8], bytes: &[u8], t: u8, p: u8) -> Answer
    requires { (length one.now ≡ (chips.facts Bmp280).one) × (length bytes.now ≡ (chips.facts Bmp280).bytes) × (reg.are_codes t p 0 ≡ true) }
    ensures { reading_answer result ≡ reading_answer (Ok (by.reading_by Bmp280 (words_of one.now []) (counts_of bytes.now) t p 0)) }
{
    // Written out, the eight bytes show which two are zeros.
    compensation::compensate(
        one,
        &NO_BLOCK,
        &[
            bytes[0], bytes[1], bytes[2], bytes[3], bytes[4], bytes[5], 0, 0,
        ],
        t,
        p,
        SKIPPED,
    )
}

// The reading of a BMP280, or what refuses it: lengths, and then codes.
// The third code is checked, and then not used.
pub fn compensate(one: &[u8], two: &[u8], bytes: &[u8], t: u8, p: u8, h: u8) -> Answer
    ensures { reading_answer result ≡ reading_answer (by.compensated_by Bmp280 one.now two.now bytes.now t p h) }
{
    if !are_lengths(Kind::Bmp280, one.len(), two.len(), bytes.len()) {
        return Err(Refusal {
            number: paper::WRONG_LENGTH,
        });
    }
    if !paper::are_codes(t, p, h) {
        return Err(Refusal {
            number: paper::OUT_OF_RANGE,
        });
    }
    read(one, bytes, t, p)
}
