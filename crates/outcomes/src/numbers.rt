// Which answer reading and writing give, exactly when, for every sheet's number and every day. No code.
