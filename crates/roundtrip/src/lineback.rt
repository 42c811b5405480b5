// Laws of one line: the canonical line of an entry that fits is read as that entry, and holds no line end. No code.
