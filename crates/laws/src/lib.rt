// No code: the theorems about reading that document 01 and the auditor ask for, stated in specs/ and proved in proofs/.
#![tactic(auto)]
