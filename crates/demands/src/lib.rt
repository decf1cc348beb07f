// The user's demands as statements about bytes, and their proofs. There is no code here: specs/ has what is stated, proofs/ why it holds.
#![tactic(auto)]
