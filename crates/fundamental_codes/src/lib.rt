// The figures of the fundamental of whole codes are finite, and what their signs say: theorems over the definitions of fundamental, and no code.
#![tactic(auto)]
