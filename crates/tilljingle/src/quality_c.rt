// Distortion, effective bits, and the quotients behind SNR, SINAD and SFDR.
ghost use Rattle.std.specs.Prelude.{◌≡◌};
ghost use Rattle.quality.specs.Quality.{answer_thd, enob_of, snr_of, sinad_of, answer_quotient, answer_sfdr};
ghost use Rattle.crossing.specs.Measured.{figure_of};
ghost use Rattle.crossing.specs.QualityCrossing.{coded_quotient, coded_sfdr};

use crossing::measured::Figure;
use crossing::quotients::CodedQuotient;

#[unsafe(no_mangle)]
pub extern "C" fn tj_compute_thd_from_spectrum(spectrum: &[f32], fundamental_bin: usize) -> Figure
    ensures { result ≡ figure_of (answer_thd spectrum.now fundamental_bin) }
{
    quality::compute_thd_from_spectrum(spectrum, fundamental_bin).into()
}

#[unsafe(no_mangle)]
pub extern "C" fn tj_snr_quotient(spectrum: &[f32], fundamental_bin: usize) -> CodedQuotient
    ensures { result ≡ coded_quotient (answer_quotient snr_of spectrum.now fundamental_bin) }
{
    quality::snr_quotient(spectrum, fundamental_bin).into()
}

#[unsafe(no_mangle)]
pub extern "C" fn tj_sinad_quotient(spectrum: &[f32], fundamental_bin: usize) -> CodedQuotient
    ensures { result ≡ coded_quotient (answer_quotient sinad_of spectrum.now fundamental_bin) }
{
    quality::sinad_quotient(spectrum, fundamental_bin).into()
}

#[unsafe(no_mangle)]
pub extern "C" fn tj_sfdr_quotient(spectrum: &[f32], fundamental_bin: usize) -> CodedQuotient
    ensures { result ≡ coded_sfdr (answer_sfdr spectrum.now fundamental_bin) }
{
    quality::sfdr_quotient(spectrum, fundamental_bin).into()
}

#[unsafe(no_mangle)]
pub extern "C" fn tj_compute_enob(sinad_db: f32) -> f32
    ensures { result ≡ enob_of sinad_db }
{
    quality::compute_enob(sinad_db)
}
