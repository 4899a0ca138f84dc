//! What a lawful tape of a wire session is: what is decided of a request, which errors a frame makes, what each
//! step asks for, which timers fire, and why an exchange is doomed or a connection closed.
#![tactic(auto)]
