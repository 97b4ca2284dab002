// The small situations of the rules, computed: read specs/, Table last.
#![tactic(auto)]
