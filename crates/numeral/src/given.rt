// Laws of a field that is read on. No code.
