// No code: 01's starred examples, one table and one statement over the definitions (specs/Starred.antt).
#![tactic(auto)]
