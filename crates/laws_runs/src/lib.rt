#![tactic(auto)]

// Every run: any list of calls from a reset, refused ones among them: theorems in specs/.
