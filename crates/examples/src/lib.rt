// Document 01's starred examples, proved. The crate is its theory: specs/Starred.antt has the table and the statement, and there is no code.
#![tactic(auto)]
