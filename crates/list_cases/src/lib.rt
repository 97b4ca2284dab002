// Event lists that are written, from steps and from text, and refusals of these: read specs/.
#![tactic(auto)]
