// Which numbers a refusal may have, and where it may point: of a line, and of a whole file. No code.
