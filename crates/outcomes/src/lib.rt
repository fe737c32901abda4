// What a build may answer (proofs/Refusals.antt), and which twentieths it starts from (Grid, RustStep): laws over the definitions of `steps`,
// with no function of their own. Definitions and most of the laws stand in specs/, other laws and their terms in proofs/.
#![tactic(auto)]
