// The C boundary, as include/tilljingle.h declares it. One thin export for each call of number, samples, timing, power, code_power, fundamental, figures, spectrum,
// quality, capture, writing and reporting, for `generate_samples`, for signal's calls but `get_metrics` (figures, THD and edition are fields), and for the calls on a
// port that do more than read or set fields; harmonics are also read and set in place. A file for each part; what crosses is crate crossing's.
#![tactic(auto)]

pub mod capture_c;
pub mod figures_c;
pub mod fundamental_c;
pub mod generator_c;
pub mod harmonics_c;
pub mod number_c;
pub mod port_c;
pub mod power_c;
pub mod quality_c;
pub mod report_c;
pub mod samples_c;
pub mod signal_c;
pub mod spectrum_c;
pub mod timing_c;
