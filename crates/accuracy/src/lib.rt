// How near the figures of power are to exact arithmetic: a theorem over power's definitions, and no code.
#![tactic(auto)]
