// The power of codes: the counts of codes, the codes; p, nonactive, s and pf.
use replaying::lists::first;
use replaying::packed::PAIRS;
use replaying::said::Said;
use replaying::{packed, read, records};

// Of the first codes of these, as many as the words 4 and 5 say.
pub fn power(line: &[u8], volts: &[i16], amps: &[i16]) -> Said {
    let volts = first(volts, read::size(line, 4));
    let amps = first(amps, read::size(line, 5));
    records::power(code_power::power_of_codes(volts, amps))
}

pub fn call(line: &[u8]) -> Said {
    let mut volts = [0; PAIRS];
    let mut amps = [0; PAIRS];
    packed::pairs(line, 6, &mut volts, &mut amps);
    power(line, &volts, &amps)
}
