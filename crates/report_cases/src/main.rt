// Prints the report of inputs at the edges: wrong lines, no bytes, as many pairs and bytes as are taken, and one more of each.
#![tactic(auto)]

use printing::print_report;
use writing::write_capture;

// Zero codes in a capture that fills `text`; 4,096 pairs take 35,072 bytes, and 4,097 take 35,089.
fn print_zeros<R: Print + Eprint>(rt: &R, codes: &[i16], text: &mut [u8]) {
    let _ = write_capture(codes, codes, 65535, text);
    print_report(rt, text);
}

fn main(rt: HostRuntime) {
    print_report(&rt, b"0000010001FFFF01\n");
    print_report(
        &rt,
        b"0000010001FFFF00\n0001010001FFFFFF\n0003010001FFFFFD\n",
    );
    print_report(&rt, b"0000010001FFFF00");
    print_report(&rt, b"");
    print_zeros(&rt, &[0i16; 4096], &mut [0u8; 35072]);
    print_zeros(&rt, &[0i16; 4097], &mut [0u8; 35089]);
    print_report(&rt, &[b'0'; 65536]);
    print_report(&rt, &[b'0'; 65537]);
}
