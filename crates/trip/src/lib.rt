// No code: what the writer makes, the reader takes, and gives back the same codes. The theorem is in proofs/Trip.antt.
#![tactic(auto)]
