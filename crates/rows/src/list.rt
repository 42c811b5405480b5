// The rows that are left from a place of the lent bytes on, one at a time. No code.
