// Bus bytes, handed over with their length.
ghost use Rattle.std.specs.Prelude.{◌≡◌};
ghost use Rattle.bus.specs.Writing.{encoded_answer, decoded_answer};
ghost use Rattle.onegrish_answers.specs.Handed as into;

use crate::handing;
use bus::{Decoded, Device};
use paper::Refusal;

// The number of an encoding; its length is written where it is 0.
pub fn hand_length(encoded: Result<usize, Refusal>, length: &mut usize) -> u8
    ensures { (result, length.new) ≡ into.length_into (encoded_answer encoded) length.old }
{
    handing::hand(encoded, length)
}

// The number of a decoding; the pairs' length is written where it is 0.
pub fn hand_pairs_length(decoded: Result<Decoded, Refusal>, length: &mut usize) -> u8
    ensures { (result, length.new) ≡ into.length_into (decoded_answer decoded) length.old }
{
    hand_length(decoded.map(|pairs| pairs.bytes), length)
}

// The same with the device's address, where it has one.
pub fn hand_pairs(decoded: Result<Decoded, Refusal>, address: &mut u8, length: &mut usize) -> u8
    ensures { (result, address.new, length.new) ≡ into.device_into (decoded_answer decoded) address.old length.old }
{
    if let Ok(pairs) = decoded {
        if let Device::At(own) = pairs.device {
            *address = own;
        }
    }
    hand_pairs_length(decoded, length)
}
