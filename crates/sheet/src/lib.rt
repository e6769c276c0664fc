// The design sheet as a value and as bytes. specs/ has its rules and proofs/ their laws; the code that reads it is in `reading`, what is worked out of it in `sizing`.
#![tactic(auto)]
