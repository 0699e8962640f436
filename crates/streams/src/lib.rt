// Kinds of byte, the walk, the reports of a stream and reading a record: definitions and what holds of them. There is no code here.
#![tactic(auto)]
