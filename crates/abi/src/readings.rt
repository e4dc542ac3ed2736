// A reading by its number: 0 is the crate reading, any other number the standard reading.
ghost use Rattle.abi.specs.Readings.{ClassReadingByNumberIs, TlvReadingByNumberIs};

// Stays: ClassReadingByNumberIs and TlvReadingByNumberIs name the readings of two crates.

// The reading of a command.
#[tactic(auto, unfolding(crate::specs::Readings::class_reading_by_number))]
pub fn class_reading_by_number(number: u8) -> class::Reading
    ensures { ClassReadingByNumberIs number result }
{
    match number {
        0 => class::Reading::Crate,
        _ => class::Reading::Standard,
    }
}

// The reading of a BER record.
#[tactic(auto, unfolding(crate::specs::Readings::tlv_reading_by_number))]
pub fn tlv_reading_by_number(number: u8) -> tlv::Reading
    ensures { TlvReadingByNumberIs number result }
{
    match number {
        0 => tlv::Reading::Crate,
        _ => tlv::Reading::Standard,
    }
}
