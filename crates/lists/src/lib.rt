// The general theory of lists: it has no code. The definitions and their laws are in specs/.
#![tactic(auto)]
