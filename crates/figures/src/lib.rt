// Document 01's figures. The starred ones are proved here from the definitions; the others are run by the programs on examples/.
#![tactic(auto)]
