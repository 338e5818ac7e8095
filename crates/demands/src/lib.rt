// The statements that a reader holds against the papers, on one screen: specs/Checks.antt has the bench checks. There is no code here.
#![tactic(auto)]
